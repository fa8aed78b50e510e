// The judgement of an input that has ended, or is decided before; and the line that tells it.
ghost use Rattle.std.specs.Prelude.{◌≡◌, ◌+◌, ◌≤◌, length};
ghost use Rattle.io.specs.Counts.{IsPrefixLen};
ghost use Rattle.text.specs.Text.{max_digits, Wrote};
ghost use Rattle.traces.specs.declared.Judgement.TheVariants.{Differs};
ghost use Rattle.traces.specs.Reading.{begun_in};
ghost use Rattle.traces.specs.Judgement.{lacking, agreed, by_verdict, closed_held, told};
ghost use Rattle.traces.specs.Judgement.{judgement_text, line_bytes};

use crate::{Held, Judgement, LINE};
use checking::{Part, Verdict};
use text::{next_count, put_bytes, put_number};
use tracing::{Stage, Trace};

// The line behind those that were read is missing, or has no LF.
fn lacking_line(t: Trace) -> Judgement
    ensures { result ≡ lacking t }
{
    Judgement::Malformed(next_count(t.lines))
}

// All entries agree: the trace is accepted if no line has begun.
fn all_agree(held: Held) -> Judgement
    ensures { result ≡ agreed held.trace (begun_in held) }
{
    let t = held.trace;
    if held.n == 0 {
        let k = t.checker;
        return Judgement::Accepted(k.entries);
    }
    lacking_line(t)
}

// A setup that is refused, or the first entry that differs; else the judgement of a trace that agrees.
fn by_verdict(v: Verdict, j: Judgement) -> Judgement
    ensures { result ≡ by_verdict v j }
{
    match v {
        Verdict::Refused(n) => Judgement::Refused(n),
        Verdict::Agrees => j,
        Verdict::Differs(i, p) => Judgement::Differs(i, p),
    }
}

// The judgement of an input that has ended, by what is held of it.
pub fn judge(held: Held) -> Judgement
    ensures { result ≡ closed_held held }
{
    let t = held.trace;
    let k = t.checker;
    let v = k.verdict;
    let stage = t.stage;
    match stage {
        Stage::Head => lacking_line(t),
        Stage::Sizes => lacking_line(t),
        Stage::Rows => lacking_line(t),
        Stage::Entries => by_verdict(v, all_agree(held)),
        Stage::Malformed => Judgement::Malformed(t.lines),
    }
}

// A word, a number behind it, and the end of the line.
fn put_line(out: &mut [u8], word: &[u8], n: u64, end: &[u8]) -> usize
    requires { length word.now + max_digits + length end.now ≤ length out.old }
    ensures { Wrote (told word.now n end.now)
        out.old out.new result }
{
    let a = put_bytes(out, 0, word);
    let b = put_number(out, a, n);
    put_bytes(out, b, end)
}

// The line of an entry that differs.
fn put_differs(out: &mut [u8], i: u64, p: Part) -> usize
    requires { line_bytes ≤ length out.old }
    ensures { Wrote (judgement_text (Differs i p)) out.old out.new result }
{
    match p {
        Part::Answer => put_line(out, b"differs ", i, b" answer\n"),
        Part::Served => put_line(out, b"differs ", i, b" served\n"),
        Part::Charges => put_line(out, b"differs ", i, b" charges\n"),
    }
}

// The line of a judgement.
pub fn put_judgement(out: &mut [u8; LINE], j: Judgement) -> usize
    ensures prefix_len { IsPrefixLen result out.new }
    ensures wrote { Wrote (judgement_text j) out.old out.new result }
{
    match j {
        Judgement::Malformed(n) => put_line(out, b"malformed ", n, b"\n"),
        Judgement::Refused(n) => put_line(out, b"refused ", n, b"\n"),
        Judgement::Differs(i, p) => put_differs(out, i, p),
        Judgement::Accepted(n) => put_line(out, b"accepted ", n, b"\n"),
    }
}
