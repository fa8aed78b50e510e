// A line of a trace by the stage: the letter that it begins with, and what its numbers make of the trace.

ghost use Rattle.std.specs.Prelude.{◌≡◌, true, ◌≤◌, length, drop};
ghost use Rattle.checking.specs.Checking.{Going};
ghost use Rattle.tracing.specs.declared.Stage.TheVariants as stage;
ghost use Rattle.tracing.specs.Shapes.{HeadNumbers, charges_at, entry_begins};
ghost use Rattle.tracing.specs.Tracing.{malformed as Tracing·malformed, awaits_sizes, ranked as Tracing·ranked};
ghost use Rattle.tracing.specs.Tracing.{headed as Tracing·headed, tabled as Tracing·tabled};
ghost use Rattle.tracing.specs.Tracing.{entered as Tracing·entered, letter_of, taken_in};

use crate::shapes::{
    answer_at, byte, deadline_in, entry_begins, head_setup, ranks_in, row_fits, served_in,
    sizes_fit, value_at, with_row, with_sizes, word,
};
use crate::{Stage, Trace};
use checking::{Checker, Verdict, check_sound, start};
use gate::{Record, Setup};
use items::head_fits;
use layout::is_ranks;
use lines::narrowed;
use text::next_count;

// The number of a refusal of its R.
const BAD_RANKS: u64 = 33;

// ONE MORE LINE, which t has counted

fn malformed(t: Trace) -> Trace
    ensures { result ≡ Tracing·malformed t }
{
    Trace {
        stage: Stage::Malformed,
        ..t
    }
}

// A setup without sizes that is refused with 4 alone may yet be a good one.
fn awaits_sizes(v: Verdict) -> Stage
    ensures { result ≡ awaits_sizes v }
{
    match v {
        Verdict::Refused(n) => {
            if n == gate::number(Err(gate::Refusal::BadSize(0))) {
                Stage::Sizes
            } else {
                Stage::Entries
            }
        }
        Verdict::Agrees => Stage::Entries,
        Verdict::Differs(_, _) => Stage::Entries,
    }
}

fn headed(t: Trace, vs: &[u64]) -> Trace
    requires { HeadNumbers vs.now }
    ensures { (result ≡ Tracing·headed t vs.now) × Going result.checker }
{
    let s = head_setup(vs);
    let k = start(word(value_at(vs, 0)), s);
    Trace {
        stage: awaits_sizes(k.verdict),
        rows: 0,
        ranks: ranks_in(vs),
        setup: s,
        checker: k,
        ..t
    }
}

// The checker of a setup whose R isn't known is refused with 33, whatever else is wrong with its tables.
fn ranked(q: u8, k: Checker) -> Checker
    requires { Going k }
    ensures { (result ≡ Tracing·ranked q k) × Going result }
{
    if is_ranks(q) {
        return k;
    }
    Checker {
        verdict: Verdict::Refused(BAD_RANKS),
        ..k
    }
}

// With the sizes and some rows: more rows are to come, or the entries begin.
fn tabled(t: Trace, rows: u64, s: Setup) -> Trace
    requires { Going t.checker }
    ensures { (result ≡ Tracing·tabled t rows s) × Going result.checker }
{
    let k = t.checker;
    if rows < u64::from(s.clients) {
        return Trace {
            stage: Stage::Rows,
            lines: t.lines,
            rows: rows,
            ranks: t.ranks,
            setup: s,
            checker: k,
        };
    }
    let first = ranked(t.ranks, start(k.version, s));
    Trace {
        stage: Stage::Entries,
        lines: t.lines,
        rows: rows,
        ranks: t.ranks,
        setup: s,
        checker: first,
    }
}

fn entered(t: Trace, vs: &[u64], charges: &[u32]) -> Trace
    requires vs_value { (entry_begins t.checker.version vs.now ≡ true)
        × (charges.now ≡ drop (charges_at t.checker.version) vs.now) }
    requires going { Going t.checker }
    ensures { (result ≡ Tracing·entered t vs.now) × Going result.checker }
{
    let k = t.checker;
    let at = answer_at(k.version);
    let code = byte(value_at(vs, 0));
    let argument = word(value_at(vs, 1));
    let deadline = deadline_in(k.version, vs);
    let answer = word(value_at(vs, at));
    let served = served_in(value_at(vs, at + 1));
    let raw = Record {
        code,
        argument,
        deadline,
    };
    let next = check_sound(k, raw, answer, served, charges);
    Trace {
        stage: Stage::Entries,
        checker: next,
        ..t
    }
}

// BY THE STAGE: A LINE OF THESE NUMBERS

fn head_line(t: Trace, vs: &[u64]) -> Trace
    requires { Going t.checker }
    ensures { (result ≡ taken_in stage.Head t vs.now) × Going result.checker }
{
    if !head_fits(vs) {
        return malformed(t);
    }
    headed(t, vs)
}

fn sizes_line(t: Trace, vs: &[u64]) -> Trace
    requires { Going t.checker }
    ensures { (result ≡ taken_in stage.Sizes t vs.now) × Going result.checker }
{
    let s = t.setup;
    if !sizes_fit(s.clusters, vs) {
        return malformed(t);
    }
    tabled(t, t.rows, with_sizes(s, vs))
}

fn row_line(t: Trace, vs: &[u64]) -> Trace
    requires { Going t.checker }
    ensures { (result ≡ taken_in stage.Rows t vs.now) × Going result.checker }
{
    if !row_fits(vs) {
        return malformed(t);
    }
    let s = t.setup;
    tabled(t, next_count(t.rows), with_row(s, t.rows, vs))
}

fn entry_line(t: Trace, vs: &[u64], charges: &mut [u32]) -> Trace
    requires vs_in_bounds { length vs.now ≤ length charges.old }
    requires going { Going t.checker }
    ensures { (result ≡ taken_in stage.Entries t vs.now) × Going result.checker }
{
    let k = t.checker;
    let before = answer_at(k.version) + 2;
    if !entry_begins(k.version, vs) {
        return malformed(t);
    }
    if !narrowed(&vs[before..], charges) {
        return malformed(t);
    }
    let n = vs.len() - before;
    entered(t, vs, &charges[..n])
}

// BY THE STAGE ALONE

pub fn letter(s: Stage) -> u8
    ensures { result ≡ letter_of s }
{
    match s {
        Stage::Head => b'S',
        Stage::Sizes => b'Z',
        Stage::Rows => b'C',
        Stage::Entries => b'E',
        Stage::Malformed => 0,
    }
}

// A line of these numbers, by the stage.
pub fn line_taken(s: Stage, t: Trace, vs: &[u64], charges: &mut [u32]) -> Trace
    requires vs_in_bounds { length vs.now ≤ length charges.old }
    requires going { Going t.checker }
    ensures { (result ≡ taken_in s t vs.now) × Going result.checker }
{
    match s {
        Stage::Head => head_line(t, vs),
        Stage::Sizes => sizes_line(t, vs),
        Stage::Rows => row_line(t, vs),
        Stage::Entries => entry_line(t, vs, charges),
        Stage::Malformed => t,
    }
}
