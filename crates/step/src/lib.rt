// The public door of the gate: one event or one raw record on any gate whatever, with the check of soundness. Beside it
// the inner door for callers that hold the parts of a sound gate: the same without the check, and it keeps soundness.
#![tactic(auto)]

ghost use Rattle.std.specs.Prelude.{◌≡◌, true};
ghost use Rattle.rules.specs.Records.{newest, known, heard_of};
ghost use Rattle.gate.specs.Heard.{event_in, heard_in};
ghost use Rattle.parts.specs.Parts.{gate_of};
ghost use Rattle.soundness.specs.Clauses.{sound_of};
ghost use Rattle.answers.specs.Answers.{Hearing};
ghost use Rattle.step.specs.Stepped.{told_in, stepped, Ranged, Given};

use answers::{Answer, Outcome};
use gate::{Event, Gate, Heard, NEWEST_VERSION, Record, Setup, heard_in};
use parts::Queues;

// The answer, and the gate after.
#[derive(Clone, Copy)]
pub struct Answered {
    pub answer: Answer,
    pub gate: Gate,
}

// THE INNER DOOR

// An event on the parts of a sound gate.
pub fn sound_step(
    q: Queues,
    setup: &Setup,
    charges: &mut [u32; 64],
    keys: &mut [u32; 64],
    e: Event,
) -> Outcome
    requires { Ranged setup.now q }
    ensures { Hearing (Given setup.now) (known (event_in e)) q charges.old keys.old result charges.new keys.new }
{
    match e {
        Event::Invoke(c) => calls::invoke(q, setup, charges, keys, c, None),
        Event::InvokeBy(c, d) => calls::invoke(q, setup, charges, keys, c, Some(d)),
        Event::Run(n) => running::run(q, setup, keys, charges, n),
        Event::Reply => calls::reply(q, setup, keys),
        Event::Abort(c) => calls::abort(q, setup, keys, c),
        Event::Ready => calls::ready(q),
    }
}

// What a record says, on the parts of a sound gate.
pub fn sound_record(
    q: Queues,
    setup: &Setup,
    charges: &mut [u32; 64],
    keys: &mut [u32; 64],
    h: Heard,
) -> Outcome
    requires { Ranged setup.now q }
    ensures { Hearing (Given setup.now) (heard_in h) q charges.old keys.old result charges.new keys.new }
{
    match h {
        Heard::Known(e) => sound_step(q, setup, charges, keys, e),
        Heard::ReplyReady => calls::reply_ready(q, setup, keys),
        Heard::Unknown => Outcome {
            answer: Answer::Unknown,
            queues: q,
        },
    }
}

// The same, with the gate put together after.
fn joined_record(
    s: Setup,
    q: Queues,
    mut charges: [u32; 64],
    deadlines: [u32; 64],
    h: Heard,
) -> Answered
    requires { sound_of (gate_of s q charges deadlines) ≡ true }
    ensures { told_in result ≡ stepped (gate_of s q charges deadlines) (heard_in h) }
{
    let mut keys = parts::keys_of(s.timed, s.priorities, deadlines);
    let r = sound_record(q, &s, &mut charges, &mut keys, h);
    let due = parts::deadlines_of(s.timed, keys);
    Answered {
        answer: r.answer,
        gate: parts::gate_of(s, r.queues, charges, due),
    }
}

// What a record says, on a sound gate whole.
pub fn sound_heard(g: Gate, h: Heard) -> Answered
    requires { sound_of g ≡ true }
    ensures { told_in result ≡ stepped g (heard_in h) }
{
    joined_record(g.setup, parts::queues_of(g), g.charges, g.deadlines, h)
}

// THE PUBLIC DOOR

// What a record says, on any gate: 19 before all else.
pub fn step_heard(g: Gate, h: Heard) -> Answered
    ensures { told_in result ≡ stepped g (heard_in h) }
{
    if !sound_check::sound(g) {
        return Answered {
            answer: Answer::Unsound,
            gate: g,
        };
    }
    sound_heard(g, h)
}

// An event on any gate.
pub fn step(g: Gate, e: Event) -> Answered
    ensures { told_in result ≡ stepped g (known (event_in e)) }
{
    step_heard(g, Heard::Known(e))
}

// A raw record, code, argument and deadline, as the newest logs have it, on any gate: 19 before 18.
pub fn step_record(g: Gate, code: u8, argument: u16, deadline: u32) -> Answered
    ensures { told_in result ≡ stepped g (heard_of newest g.setup.timed (record {
      code = code;
      argument = argument;
      deadline = deadline;
    })) }
{
    let record = Record {
        code,
        argument,
        deadline,
    };
    step_heard(g, heard_in(NEWEST_VERSION, g.setup.timed, record))
}
