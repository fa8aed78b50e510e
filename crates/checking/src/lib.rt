// A checker of a kernel's trace, entry by entry: the gate that the rules give so far, and the verdict so far.
#![tactic(auto)]

ghost use Rattle.std.specs.Prelude.{◌≡◌};
ghost use Rattle.rules.specs.Replay.{in_service};
ghost use Rattle.rules.specs.Traces.{same_served, same_charges, difference};
ghost use Rattle.gate.specs.Shown.{server_of};
ghost use Rattle.gate.specs.Heard.{record_in};
ghost use Rattle.checking.specs.Checking.{served_in, seen_in, is_agreeing, first_verdict, verdict_at};
ghost use Rattle.checking.specs.Checking.{begun, entered_by, checked, Going};

use answers::number;
use gate::{Client, Gate, Record, Server, Setup, heard_in};
use layout::is_version;
use step::{sound_heard, step_heard};
use text::next_count;

// The number of a refusal of its version.
const BAD_VERSION: u64 = 22;

// What an entry differs in.
#[derive(Clone, Copy)]
pub enum Part {
    Answer,
    Served,
    Charges,
}

// The setup is refused, with its number; or all entries so far agree; or the first that differs, from 0, and in what.
#[derive(Clone, Copy)]
pub enum Verdict {
    Refused(u64),
    Agrees,
    Differs(u64, Part),
}

// What is held between entries: the trace's version, the gate that the rules give so far, how many entries were seen,
// and the verdict so far.
#[derive(Clone, Copy)]
pub struct Checker {
    pub version: u16,
    pub gate: Gate,
    pub entries: u64,
    pub verdict: Verdict,
}

// THE START

fn first_verdict(version: u16, n: u64) -> Verdict
    ensures { result ≡ first_verdict version n }
{
    if !is_version(version) {
        return Verdict::Refused(BAD_VERSION);
    }
    if n != 0 {
        return Verdict::Refused(n);
    }
    Verdict::Agrees
}

// The checker of a trace of that version and setup, before its first entry.
pub fn start(version: u16, s: Setup) -> Checker
    ensures value { result ≡ begun version s }
    ensures going { Going result }
{
    let f = Gate::fresh(s);
    let first = first_verdict(version, gate::number(f.verdict));
    Checker {
        version,
        gate: f.gate,
        entries: 0,
        verdict: first,
    }
}

// ONE ENTRY

// Whether no entry has differed, of a setup that is not refused.
pub fn is_agreeing(v: Verdict) -> bool
    ensures { result ≡ is_agreeing v }
{
    match v {
        Verdict::Refused(_) => false,
        Verdict::Agrees => true,
        Verdict::Differs(_, _) => false,
    }
}

fn same_served(says: Option<Client>, s: Server) -> bool
    ensures { result ≡ same_served (served_in says) (in_service (server_of s)) }
{
    match says {
        None => !serving::is_serving(s),
        Some(c) => serving::serves(s, usize::from(c.0)),
    }
}

fn same_charges(theirs: &[u32], ours: &[u32]) -> bool
    ensures { result ≡ same_charges theirs.now ours.now }
{
    theirs == ours
}

// The verdict after an entry, by what differs first between what the kernel says and our own.
fn verdict_at(
    entry: u64,
    answer: u16,
    says: Option<Client>,
    theirs: &[u32],
    number: u64,
    server: Server,
    ours: &[u32],
) -> Verdict
    ensures { result ≡ verdict_at entry (difference (seen_in answer says theirs.now)
        (record { answer = number; served = in_service (server_of server); charges = ours.now })) }
{
    if u64::from(answer) != number {
        return Verdict::Differs(entry, Part::Answer);
    }
    if !same_served(says, server) {
        return Verdict::Differs(entry, Part::Served);
    }
    if !same_charges(theirs, ours) {
        return Verdict::Differs(entry, Part::Charges);
    }
    Verdict::Agrees
}

// The checker after an entry, by our own number and gate.
fn entered(
    g: Gate,
    n: u64,
    k: Checker,
    answer: u16,
    says: Option<Client>,
    theirs: &[u32],
) -> Checker
    ensures { result ≡ entered_by k (record { number = n; gate = g }) (seen_in answer says theirs.now) }
{
    let clients = usize::from(g.setup.clients).min(Gate::MAX_CLIENTS);
    let ours = &g.charges[..clients];
    let v = verdict_at(k.entries, answer, says, theirs, n, g.server, ours);
    Checker {
        gate: g,
        entries: next_count(k.entries),
        verdict: v,
        ..k
    }
}

// The checker after one more entry: a record, the kernel's answer to it, whom the kernel says is in service then, and
// its charges.
pub fn check(k: Checker, r: Record, answer: u16, says: Option<Client>, charges: &[u32]) -> Checker
    ensures { result ≡ checked k (record_in r) (seen_in answer says charges.now) }
{
    if !is_agreeing(k.verdict) {
        return k;
    }
    let a = step_heard(k.gate, heard_in(k.version, k.gate.setup.timed, r));
    entered(a.gate, number(a.answer), k, answer, says, charges)
}

// The same for who holds a checker whose gate is sound while the trace agrees, as `start` and this function leave it.
pub fn check_sound(
    k: Checker,
    r: Record,
    answer: u16,
    says: Option<Client>,
    charges: &[u32],
) -> Checker
    requires { Going k }
    ensures value { result ≡ checked k (record_in r) (seen_in answer says charges.now) }
    ensures going { Going result }
{
    if !is_agreeing(k.verdict) {
        return k;
    }
    let a = sound_heard(k.gate, heard_in(k.version, k.gate.setup.timed, r));
    entered(a.gate, number(a.answer), k, answer, says, charges)
}
