// A trace as lines of text, one by one: the setup that the first ones say, then the entries, each checked as it comes.
#![tactic(auto)]

mod shapes;
mod stages;

ghost use Rattle.std.specs.Prelude.{◌≡◌, ◌≤◌, length, take};
ghost use Rattle.checking.specs.Checking.{Going};
ghost use Rattle.tracing.specs.Tracing.{none_read, is_decided, taken_in, taken};

use checking::{Checker, is_agreeing, start};
use gate::Setup;
use lines::{MOST, values_of};
use shapes::head_setup;
use stages::{letter, line_taken};
use text::{SPACE, next_count};

// What the next line has to be; or that one was malformed.
#[derive(Clone, Copy)]
pub enum Stage {
    Head,
    Sizes,
    Rows,
    Entries,
    Malformed,
}

// What has been read: how many lines, how many rows of clients, R, the setup so far, and the checker of the entries. A
// malformed line is the last one that is counted.
#[derive(Clone, Copy)]
pub struct Trace {
    pub stage: Stage,
    pub lines: u64,
    pub rows: u64,
    pub ranks: u8,
    pub setup: Setup,
    pub checker: Checker,
}

// Before the first line.
pub fn none_read() -> Trace
    ensures value { result ≡ none_read }
    ensures going { Going result.checker }
{
    let none = [0u64; 1];
    let s = head_setup(&none[..0]);
    Trace {
        stage: Stage::Head,
        lines: 0,
        rows: 0,
        ranks: 0,
        setup: s,
        checker: start(0, s),
    }
}

// Whether the verdict is there, so that nothing that follows counts.
pub fn is_decided(t: Trace) -> bool
    ensures { result ≡ is_decided t }
{
    let k = t.checker;
    let v = k.verdict;
    let stage = t.stage;
    match stage {
        Stage::Head => false,
        Stage::Sizes => false,
        Stage::Rows => false,
        Stage::Entries => !is_agreeing(v),
        Stage::Malformed => true,
    }
}

// ANY LINE

// A line of the first n of these numbers.
fn first_taken(s: Stage, t: Trace, v: &[u64], n: usize, charges: &mut [u32]) -> Trace
    requires n_in_bounds { (n ≤ length v.now) × (n ≤ length charges.old) }
    requires going { Going t.checker }
    ensures { (result ≡ taken_in s t (take n v.now)) × Going result.checker }
{
    line_taken(s, t, &v[..n], charges)
}

// What one more line makes of it, without its LF. Numbers and charges are room to read them into.
pub fn take_line(t: Trace, line: &[u8], v: &mut [u64; MOST], charges: &mut [u32; MOST]) -> Trace
    requires { Going t.checker }
    ensures value { result ≡ taken t line.now }
    ensures going { Going result.checker }
{
    if is_decided(t) {
        return t;
    }
    let stage = t.stage;
    let mut next = t;
    next.lines = next_count(t.lines);
    let n = values_of(line, letter(stage), SPACE, v);
    first_taken(stage, next, v, n, charges)
}
