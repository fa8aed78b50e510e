// Tries the writer of logs. Standard input gives a room in bytes and a log. The writer is handed a buffer of that room,
// the log's version, its setup and each of its records; what it answers, and the whole buffer, go to standard output.
#![tactic(auto)]

mod input;
mod lines;

ghost use Rattle.std.specs.Prelude.{◌≡◌, ◌+◌, ◌*◌, ◌≤◌, length};
ghost use Rattle.layout.specs.Layout.{record_size};
ghost use Rattle.gate.specs.Heard.{record_in};
ghost use Rattle.writing.specs.Writing.{record_put};
ghost use Rattle.write_log.specs.Sizes.{max_room, input_bytes, most_records, line_bytes, text_bytes};

use gate::{Record, Setup};
use input::{INPUT, MAX_ROOM, read_input, room_in};
use layout::record_size;
use lines::{TEXT, put_buffer, put_entry, put_named, put_refusal};
use logs::{Refusal, record_at};
use std::io::{Read, Write};
use streams::{Failure, write_out};

// What a byte of the buffer holds before anything is written there.
const UNWRITTEN: u8 = 255;

// Where the writing stands: the index and the place of the next record, how many bytes of the buffer are used, and
// where the text ends.
#[derive(Drop)]
struct Standing {
    index: usize,
    next: usize,
    used: usize,
    end: usize,
}

fn main(rt: HostRuntime) {
    if let Err(failure) = run(&mut rt.stdin(), &mut rt.stdout(), &mut rt.stderr()) {
        streams::tell(&mut rt.stderr(), failure.line());
    }
}

// Tries the writer on what an input gives.
fn run<R: Read, W: Write, E: Write>(
    stdin: &mut R,
    stdout: &mut W,
    stderr: &mut E,
) -> Result<(), Failure> {
    let mut input = [0u8; INPUT];
    let n = read_input(stdin, &mut input)?;
    try_input(&input[..n], stdout, stderr)
}

// Tries it on an input.
fn try_input<W: Write, E: Write>(
    input: &[u8],
    stdout: &mut W,
    stderr: &mut E,
) -> Result<(), Failure>
    requires { length input.now ≤ input_bytes }
{
    let Some(asked) = room_in(input) else {
        streams::tell(
            stderr,
            b"the input does not begin with a room from 0 to 65535 and a line feed\n",
        );
        return Ok(());
    };
    let mut out = [0u8; TEXT];
    let end = put_tried(&input[asked.log..], asked.room, &mut out);
    write_out(stdout, &out[..end])
}

// Tries it on a log in a room: the text of what comes of that, and where it ends.
fn put_tried(log: &[u8], room: usize, out: &mut [u8; TEXT]) -> usize
    requires { (length log.now ≤ input_bytes) × (room ≤ max_room) }
    ensures { result ≤ length out.new }
{
    let o = logs::open(log);
    match o.opening {
        Err(r) => put_refusal(out, 0, r),
        Ok(start) => put_in_room(log, o.version, start, o.setup, room, out),
    }
}

// The same of a log that is not refused.
fn put_in_room(
    log: &[u8],
    version: u16,
    start: usize,
    setup: Setup,
    room: usize,
    out: &mut [u8; TEXT],
) -> usize
    requires { (length log.now ≤ input_bytes) × (room ≤ max_room) }
    ensures { result ≤ length out.new }
{
    let mut buffer = [UNWRITTEN; MAX_ROOM];
    put_written(log, version, start, setup, &mut buffer[..room], out)
}

// The same with a buffer for the room. Only behind the tables there are records.
fn put_written(
    log: &[u8],
    version: u16,
    start: usize,
    setup: Setup,
    buffer: &mut [u8],
    out: &mut [u8; TEXT],
) -> usize
    requires { (length log.now ≤ input_bytes) × (length buffer.old ≤ max_room) }
    ensures { result ≤ length out.new }
{
    let answer = writing::write_setup(buffer, version, setup);
    let end = put_named(out, 0, b"tables ", writing::number(answer));
    let Ok(used) = answer else {
        return put_buffer(out, end, buffer);
    };
    let first = Standing {
        index: 0,
        next: start,
        used,
        end,
    };
    let last = write_records(log, version, setup.timed, first, buffer, out);
    put_last(log, last, buffer, out)
}

// Writes the whole records of a log, also after a refusal, and puts a line for each.
fn write_records(
    log: &[u8],
    version: u16,
    timed: bool,
    first: Standing,
    buffer: &mut [u8],
    out: &mut [u8; TEXT],
) -> Standing
    requires { (length log.now ≤ input_bytes) × (first.index ≡ 0) × (first.end ≤ line_bytes) }
    ensures { result.end ≤ line_bytes * (1 + most_records) }
{
    let mut s = first;
    // Not a range by a record's size: the place of the next record is held with the rest, as a cut one is told there.
    while s.next < log.len() {
        let Ok(read) = record_at(log, version, timed, s.next) else {
            break;
        };
        s = write_next(version, timed, read.raw, s, buffer, out);
    }
    s
}

// Writes the next record, by its numbers since it may be no event, and puts its line.
fn write_next(
    version: u16,
    timed: bool,
    r: Record,
    s: Standing,
    buffer: &mut [u8],
    out: &mut [u8; TEXT],
) -> Standing
    requires { (s.index ≤ s.next) × (s.next ≤ input_bytes) × (s.end + line_bytes ≤ text_bytes) }
    ensures lines { (result.index ≡ s.index + 1) × (s.next + record_size 1 ≤ result.next)
        × (result.end ≤ s.end + line_bytes) }
    ensures used { result.used ≡ (record_put version timed (record_in r) s.used buffer.old).used }
    ensures bytes { buffer.new ≡ (record_put version timed (record_in r) s.used buffer.old).bytes }
{
    let answer = writing::write_record(buffer, s.used, version, timed, r);
    Standing {
        index: s.index + 1,
        next: s.next + record_size(version),
        used: answer.unwrap_or(s.used),
        end: put_entry(out, s.end, s.index, writing::number(answer)),
    }
}

// How many bytes were written, and the buffer; where a record is cut, the refusal instead.
fn put_last(log: &[u8], s: Standing, buffer: &[u8], out: &mut [u8; TEXT]) -> usize
    requires { (s.end ≤ line_bytes * (1 + most_records)) × (length buffer.now ≤ max_room) }
    ensures { result ≤ length out.new }
{
    if s.next < log.len() {
        return put_refusal(out, s.end, Refusal::CutRecord(s.next));
    }
    let end = put_named(out, s.end, b"wrote ", s.used as u64);
    put_buffer(out, end, buffer)
}
