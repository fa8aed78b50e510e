// Tries the doors on gates from standard input. A case is a gate's bytes and those of a record, as the newest logs have
// it; its line is 1 if the gate is sound, else 0, the answer, and each byte that the step changed.
#![tactic(auto)]

mod bytes;
mod gates;

ghost use Rattle.std.specs.Prelude.{◌+◌, ◌*◌, ◌≤◌, length};

use bytes::byte_of;
use gate::Gate;
use gates::{GATE, gate_in};
use layout::{byte_at, double_at, word_at};
use std::io::{Read, Write};
use step::Answered;
use streams::Failure;
use text::{LF, SPACE, put_byte, put_number};

// A code, a 16-bit argument and a 32-bit deadline.
const RECORD: usize = layout::RECORD_DEADLINE + 4;

const CASE: usize = GATE + RECORD;

// Room for the longest line: 22 bytes before the changes, 42 a change, and an LF.
const LINE: usize = 22 + 42 * GATE + 1;

fn main(rt: HostRuntime) {
    if let Err(failure) = answer_all(&mut rt.stdin(), &mut rt.stdout(), &mut rt.stderr()) {
        streams::tell(&mut rt.stderr(), failure.line());
    }
}

// Answers each case, to the end of the input.
fn answer_all<R: Read, W: Write, E: Write>(
    stdin: &mut R,
    stdout: &mut W,
    stderr: &mut E,
) -> Result<(), Failure> {
    let mut case = [0u8; CASE];
    // Nothing says that an input ends, and a proved loop has to: this one does after turns that no run uses up.
    for _ in 0..u64::MAX {
        let n = streams::read_whole(stdin, &mut case)?;
        if n == 0 {
            break;
        }
        if n < CASE {
            streams::tell(stderr, b"the last case is cut short\n");
            break;
        }
        answer(&case, stdout)?;
    }
    Ok(())
}

// Writes the line of a case.
fn answer<W: Write>(case: &[u8], stdout: &mut W) -> Result<(), Failure> {
    let mut out = [0u8; LINE];
    let k = put_case(&mut out, case);
    streams::write_out(stdout, &out[..k])
}

// 1 if a gate is sound, else 0.
fn flag(g: Gate) -> u8 {
    if sound_check::sound(g) { b'1' } else { b'0' }
}

// What the step makes of a gate and the record of a case.
fn tried(g: Gate, case: &[u8]) -> Answered {
    step::step_record(
        g,
        byte_at(case, GATE),
        word_at(case, GATE + layout::RECORD_ARGUMENT),
        double_at(case, GATE + layout::RECORD_DEADLINE),
    )
}

// The line of a case.
fn put_case(out: &mut [u8; LINE], case: &[u8]) -> usize
    ensures { result ≤ length out.new }
{
    let g = gate_in(case);
    let answered = tried(g, case);
    let a = put_byte(out, 0, flag(g));
    let b = put_byte(out, a, SPACE);
    let c = put_number(out, b, answers::number(answered.answer));
    let d = put_changes(out, c, case, answered.gate);
    put_byte(out, d, LF)
}

// Each byte of a gate that differs from the case's own.
fn put_changes(out: &mut [u8; LINE], at: usize, case: &[u8], g: Gate) -> usize
    requires { at ≤ 22 }
    ensures { result ≤ at + 42 * 990 }
{
    let mut end = at;
    for i in 0..GATE {
        end = put_change(out, end, i, byte_at(case, i), byte_of(g, i));
    }
    end
}

fn put_change(out: &mut [u8; LINE], at: usize, i: usize, old: u8, new: u8) -> usize
    requires { at + 42 ≤ 41603 }
    ensures { result ≤ at + 42 }
{
    if old == new {
        return at;
    }
    let a = put_byte(out, at, SPACE);
    let b = put_number(out, a, i as u64);
    let c = put_byte(out, b, b'=');
    put_number(out, c, u64::from(new))
}
