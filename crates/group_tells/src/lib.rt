// The line that tells what an event did: its index, its answer, and a field for each context after it.
#![tactic(auto)]

ghost use Rattle.std.specs.Prelude.{◌+◌, ◌≤◌, length};
ghost use Rattle.text.specs.Text.{WroteAt};
ghost use Rattle.blocking.specs.Delegates.{told_of};
ghost use Rattle.group_tells.specs.Tells.{field_text, field_bytes, fields_text, fields_bytes};
ghost use Rattle.group_tells.specs.Tells.{event_text, malformed_text, line_bytes};

use blocking::Delegate;
use group_rules::Group;
use text::{LF, SPACE, put_byte, put_bytes, put_number};

// The most bytes of a line: two numbers of 20 digits with a byte after each, and eight fields of a space, a letter and
// 20 digits.
pub const MOST: usize = 2 * 21 + 8 * 22;

// The field of a context, with a space before it: `.`, `+SERVER` or `<CONTEXT`.
fn put_field(out: &mut [u8], at: usize, d: Delegate) -> usize
    requires { at + field_bytes ≤ length out.old }
    ensures wrote_at { WroteAt at (field_text (told_of d)) out.old out.new result }
    ensures upper_bound { result ≤ at + field_bytes }
{
    match d {
        Delegate::Nobody => put_bytes(out, at, b" ."),
        Delegate::Server(s) => {
            let i = put_bytes(out, at, b" +");
            put_number(out, i, u64::from(s.0))
        }
        Delegate::Context(b) => {
            let i = put_bytes(out, at, b" <");
            put_number(out, i, u64::from(b.0))
        }
    }
}

// The fields of all contexts.
fn put_fields(out: &mut [u8], at: usize, g: Group) -> usize
    requires { at + fields_bytes ≤ length out.old }
    ensures wrote_at { WroteAt at (fields_text g) out.old out.new result }
    ensures upper_bound { result ≤ at + fields_bytes }
{
    let sets = blocking::queued_sets(g.tickets, g.stacks);
    let mut n = at;
    for (c, s) in g.stacks.iter().enumerate() {
        n = put_field(out, n, blocking::delegates_to(&g.times, &sets, *s, c));
    }
    n
}

// `INDEX ANSWER` and the fields.
pub fn put_event(out: &mut [u8], at: usize, index: u64, answer: u64, g: Group) -> usize
    requires { at + line_bytes ≤ length out.old }
    ensures wrote_at { WroteAt at (event_text index answer g) out.old out.new result }
    ensures upper_bound { result ≤ at + line_bytes }
{
    let i = put_number(out, at, index);
    let j = put_byte(out, i, SPACE);
    let k = put_number(out, j, answer);
    let l = put_fields(out, k, g);
    put_byte(out, l, LF)
}

// `malformed LINE`.
pub fn put_malformed(out: &mut [u8], at: usize, line: u64) -> usize
    requires { at + line_bytes ≤ length out.old }
    ensures wrote_at { WroteAt at (malformed_text line) out.old out.new result }
    ensures upper_bound { result ≤ at + line_bytes }
{
    let i = put_bytes(out, at, b"malformed ");
    let j = put_number(out, i, line);
    put_byte(out, j, LF)
}
