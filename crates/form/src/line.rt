// An answer as a line of text.
ghost use Rattle.std.specs.Prelude.{◌+◌, ◌≤◌, length};
ghost use Rattle.quote.specs.Told.{told};
ghost use Rattle.text.specs.Text.{WroteAt};
ghost use Rattle.form.specs.Output.{line, line_bytes};

use quote::Refusal;
use text::{LF, SPACE, put_byte, put_number};

// The most bytes of a line: three numbers of 20 digits, and a byte after each.
pub const MOST: usize = 3 * (20 + 1);

// The line of an answer, `BUDGET ANSWER PLACE`, from a place on.
pub fn put_answer(out: &mut [u8], at: usize, quote: Result<u64, Refusal>) -> usize
    requires { at + line_bytes ≤ length out.old }
    ensures wrote_at { WroteAt at (line (told quote)) out.old out.new result }
    ensures upper_bound { result ≤ at + line_bytes }
{
    let q = quote::tell(quote);
    let i = put_number(out, at, q.budget);
    let j = put_byte(out, i, SPACE);
    let k = put_number(out, j, q.answer);
    let l = put_byte(out, k, SPACE);
    let m = put_number(out, l, q.place as u64);
    put_byte(out, m, LF)
}
