// Reads a kernel's trace from standard input, and writes one line: `malformed LINE`, `refused NUMBER`,
// `differs ENTRY answer`, `differs ENTRY served`, `differs ENTRY charges` or `accepted ENTRIES`.
#![tactic(auto)]

use std::io::{Read, Write};
use streams::{Failure, read_some, write_out};
use traces::{Held, LINE, PART};
use tracing::is_decided;

fn main(rt: HostRuntime) {
    if let Err(failure) = check(&mut rt.stdin(), &mut rt.stdout()) {
        streams::tell(&mut rt.stderr(), failure.line());
    }
}

// Checks the trace of an input part by part, until it is decided or the input has ended.
fn check<R: Read, W: Write>(input: &mut R, output: &mut W) -> Result<(), Failure> {
    let mut part = [0u8; PART];
    let mut held = traces::none_held();
    // Nothing says that an input ends, and a proved loop has to: this one does after turns that no run uses up.
    for _ in 0..u64::MAX {
        let k = read_some(input, &mut part)?;
        if k == 0 {
            break;
        }
        held = traces::read_part(held, &part, k);
        if is_decided(held.trace) {
            break;
        }
    }
    tell(held, output)
}

// Writes the line of what has been read.
fn tell<W: Write>(held: Held, output: &mut W) -> Result<(), Failure> {
    let mut out = [0u8; LINE];
    let n = traces::put_judgement(&mut out, traces::judge(held));
    write_out(output, &out[..n])
}
