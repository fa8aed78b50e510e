// The lines that are printed, written into a buffer that holds all of them.

ghost use Rattle.std.specs.Prelude.{◌≡◌, ◌+◌, ◌≤◌, ◌<◌, length};
ghost use Rattle.text.specs.Text.{max_digits};
ghost use Rattle.report.specs.Sizes.{line_room};
ghost use Rattle.write_log.specs.Sizes.{line_bytes, buffer_bytes, text_bytes};

use crate::input::{INPUT, MAX_ROOM};
use layout::RECORD;
use logs::Refusal;
use report::put_refused;
use text::{LF, SPACE, put_byte, put_bytes, put_number};

// Room for a line: two numbers of 20 digits, and a byte after each.
const LINE: usize = 2 * (20 + 1);

// No more records begin in an input.
const RECORDS: usize = INPUT / RECORD + 1;

// Room for every text: the answer to the tables, those to the records, how many bytes were written, and the buffer.
pub const TEXT: usize = LINE * (1 + RECORDS + 1) + 2 * MAX_ROOM + 1;

// The line of a refused log.
pub fn put_refusal(out: &mut [u8; TEXT], at: usize, r: Refusal) -> usize
    requires { at + line_room ≤ text_bytes }
    ensures { result ≤ length out.new }
{
    put_refused(out, at, logs::number(r), logs::offset(r))
}

// A number behind its name.
pub fn put_named(out: &mut [u8; TEXT], at: usize, name: &[u8], n: u64) -> usize
    requires { (length name.now ≤ max_digits) × (at + line_bytes ≤ text_bytes) }
    ensures { result ≤ at + line_bytes }
{
    let a = put_bytes(out, at, name);
    let b = put_number(out, a, n);
    put_byte(out, b, LF)
}

// The line of a record: its index and the answer.
pub fn put_entry(out: &mut [u8; TEXT], at: usize, i: usize, answer: u64) -> usize
    requires { at + line_bytes ≤ text_bytes }
    ensures { result ≤ at + line_bytes }
{
    let a = put_number(out, at, i as u64);
    let b = put_byte(out, a, SPACE);
    let c = put_number(out, b, answer);
    put_byte(out, c, LF)
}

// The last line: all bytes of the buffer.
pub fn put_buffer(out: &mut [u8; TEXT], at: usize, buffer: &[u8]) -> usize
    requires { at + buffer_bytes (length buffer.now) ≤ text_bytes }
    ensures { result ≤ length out.new }
{
    let mut end = at;
    for b in buffer {
        end = put_hex(out, end, *b);
    }
    put_byte(out, end, LF)
}

// The digits of hexadecimal numbers.
const HEX: [u8; 16] = *b"0123456789abcdef";

// A byte as two hexadecimal digits.
fn put_hex(out: &mut [u8; TEXT], at: usize, b: u8) -> usize
    requires { at + 2 ≤ text_bytes }
    ensures { result ≡ at + 2 }
{
    let next = put_byte(out, at, HEX[usize::from(b / 16)]);
    put_byte(out, next, HEX[usize::from(b % 16)])
}
