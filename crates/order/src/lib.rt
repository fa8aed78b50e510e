// An order as a line of text: its fields read, and the quote that it asks for.
#![tactic(auto)]

ghost use Rattle.std.specs.Prelude.{◌≡◌, ◌≤◌, length};
ghost use Rattle.rules.specs.Limits.{max_lines};
ghost use Rattle.quote.specs.Told.{told};
ghost use Rattle.order.specs.Orders.{asked};
ghost use Rattle.order.specs.Steps.{max_fields, in_column, Column};

use numerals::field_value;
use quote::{MAX_LINES, Refusal};
use text::COMMA;

// The most bytes of an order.
pub const MAX_BYTES: usize = 1023;

// The first four, and N, L and W of each line.
const MAX_FIELDS: usize = 4 + 3 * MAX_LINES;

// The quote that a line of text asks for: `e,p,m,K,N1,L1,W1,N2,L2,W2,..`, without its line end.
pub fn ask(s: &[u8]) -> Result<u64, Refusal>
    ensures { told result ≡ asked s.now }
{
    if MAX_BYTES < s.len() {
        return Err(Refusal::BadLines);
    }
    let mut v = [-1i64; MAX_FIELDS];
    let n = fields::read_each(s, COMMA, &mut v, field_value);
    if MAX_FIELDS < n {
        return Err(Refusal::BadLines);
    }
    let calls = column(&v, 4);
    let caps = column(&v, 5);
    let tidies = column(&v, 6);
    let a = in_column(n, 4);
    let b = in_column(n, 5);
    let c = in_column(n, 6);
    quote::budget(
        v[0],
        v[1],
        v[2],
        v[3],
        &calls[..a],
        &caps[..b],
        &tidies[..c],
    )
}

fn in_column(n: usize, from: usize) -> usize
    requires { n ≤ max_fields }
    ensures { result ≡ in_column n from }
{
    if n < from { 0 } else { (n - from + 2) / 3 }
}

// The fields of a column: every third place from one on.
fn column(v: &[i64; MAX_FIELDS], from: usize) -> [i64; MAX_LINES]
    requires { from ≤ 6 }
    ensures { (length result ≡ max_lines) × Column v.now from result }
{
    let mut out = [0i64; MAX_LINES];
    for i in 0..MAX_LINES {
        let x = v[from + 3 * i];
        out[i] = x;
    }
    out
}
