// Invoke, reply, ready and abort on a gate's parts. Each answers as the rules do, and leaves the parts that show the
// state after: a refused event leaves them as they were. Only invoke has to do with the charges.
#![tactic(auto)]

mod deadlines;

ghost use Rattle.std.specs.Prelude.{◌≡◌, cond, List, ℕ, ◌≤◌, ◌<◌, set};
ghost use Rattle.rules.specs.Limits.{max_clients};
ghost use Rattle.rules.specs.Setup.{real_time};
ghost use Rattle.rules.specs.Events as rules;
ghost use Rattle.rules.specs.Step.{fit_form};
ghost use Rattle.rules.specs.Records.{reply_ready};
ghost use Rattle.gate.specs.Shown.{setup_of, server_of};
ghost use Rattle.parts.specs.Shows.{Homes, ServerFits};
ghost use Rattle.answers.specs.Answers.{Hearing, Answering};
ghost use Rattle.calls.specs.Due.{form_in, due_in};

use answers::{Answer, Outcome};
use deadlines::{due, replied};
use gate::{Client, Setup};
use parts::Queues;

// INVOKE

// Whether an invoke has the form that its setup calls for: with a deadline, or without.
fn fits_form(timed: bool, deadline: Option<u32>) -> bool
    ensures { result ≡ fit_form timed (form_in deadline) }
{
    deadline.is_some() == timed
}

// A wait of a real-time client begins: its charge becomes 0, and its deadline is fixed.
fn begun(
    charges: &mut [u32; 64],
    keys: &mut [u32; 64],
    setup: &Setup,
    c: Client,
    deadline: Option<u32>,
)
    requires { c.0 < max_clients }
    ensures charges_after { charges.new ≡ cond (real_time (setup_of setup.now) c.0)
        (set charges.old c.0 0) charges.old }
    ensures keys_after { keys.new ≡ cond (real_time (setup_of setup.now) c.0)
        (due_in setup.now.timed c.0 (rules.due_by (form_in deadline)) keys.old) keys.old }
{
    if rows::is_real_time(setup, c) {
        charging::reset(charges, c);
        due(keys, setup, c, deadline.unwrap_or(0));
    }
}

// Invoke c, with a deadline or without: 18 for the other form, 10, 11.
pub fn invoke(
    q: Queues,
    setup: &Setup,
    charges: &mut [u32; 64],
    keys: &mut [u32; 64],
    c: Client,
    deadline: Option<u32>,
) -> Outcome
    requires { Homes setup.now.homes × (setup.now.clients ≤ max_clients) }
    ensures { Answering (λ v. (setup.now.kinds ≡ v.kinds) × (setup.now.homes ≡ v.homes)
        × (setup.now.sizes ≡ v.sizes) × (setup.now.clients ≡ v.clients) × (setup.now.timed ≡ v.timed))
        (rules.invoke c.0 (form_in deadline)) q charges.old keys.old result charges.new keys.new }
{
    if !fits_form(setup.timed, deadline) {
        return Outcome {
            answer: Answer::Unknown,
            queues: q,
        };
    }
    if u16::from(setup.clients) <= c.0 {
        return Outcome {
            answer: Answer::NoClient,
            queues: q,
        };
    }
    let k = rows::home(setup, c);
    let line = q.lines[k.0];
    let room = q.rooms[k.0];
    if presence::present(line, room, &q.background, q.service.server, c) {
        return Outcome {
            answer: Answer::WaitsAlready,
            queues: q,
        };
    }
    begun(charges, keys, setup, c, deadline);
    Outcome {
        answer: Answer::Accepted,
        queues: entering::invoked(q, setup, c),
    }
}

// REPLY, READY AND ABORT

// Reply: 12.
pub fn reply(q: Queues, setup: &Setup, keys: &mut [u32; 64]) -> Outcome
    requires { ServerFits (server_of q.service.server) × Homes setup.now.homes }
    ensures { (cs : List ℕ) → Answering (λ v. (setup.now.homes ≡ v.homes)
        × (setup.now.sizes ≡ v.sizes) × (setup.now.timed ≡ v.timed)) rules.reply q cs keys.old result cs
        keys.new }
{
    let server = q.service.server;
    if !serving::is_serving(server) {
        return Outcome {
            answer: Answer::ServerIdle,
            queues: q,
        };
    }
    let n = leaving::replied(q, setup, keys);
    replied(keys, setup, server);
    Outcome {
        answer: Answer::Accepted,
        queues: n,
    }
}

// A reply and, if that is accepted, the ready after it, which finds the server tidying: 12.
pub fn reply_ready(q: Queues, setup: &Setup, keys: &mut [u32; 64]) -> Outcome
    requires { ServerFits (server_of q.service.server) × Homes setup.now.homes }
    ensures { (cs : List ℕ) → Hearing (λ v. (setup.now.homes ≡ v.homes)
        × (setup.now.sizes ≡ v.sizes) × (setup.now.timed ≡ v.timed)) reply_ready q cs keys.old result cs
        keys.new }
{
    let r = reply(q, setup, keys);
    let Answer::Accepted = r.answer else {
        return r;
    };
    let next = moves::picked(r.queues);
    Outcome { queues: next, ..r }
}

// Ready: 26.
pub fn ready(q: Queues) -> Outcome
    ensures { (cs ks : List ℕ) → Answering (λ v. Unit) rules.ready q cs ks result cs ks }
{
    if !serving::is_tidying(q.service.server) {
        return Outcome {
            answer: Answer::NotTidying,
            queues: q,
        };
    }
    let n = moves::picked(q);
    Outcome {
        answer: Answer::Accepted,
        queues: n,
    }
}

// Abort c: 10, 16, 17 where it is spent, else 15 where it doesn't wait.
pub fn abort(q: Queues, setup: &Setup, keys: &mut [u32; 64], c: Client) -> Outcome
    requires { Homes setup.now.homes × (setup.now.clients ≤ max_clients) }
    ensures { (cs : List ℕ) → Answering (λ v. (setup.now.kinds ≡ v.kinds) × (setup.now.homes ≡ v.homes)
        × (setup.now.sizes ≡ v.sizes) × (setup.now.clients ≡ v.clients) × (setup.now.timed ≡ v.timed))
        (rules.abort c.0) q cs keys.old result cs keys.new }
{
    if u16::from(setup.clients) <= c.0 {
        return Outcome {
            answer: Answer::NoClient,
            queues: q,
        };
    }
    if !rows::is_real_time(setup, c) {
        return Outcome {
            answer: Answer::BestEffort,
            queues: q,
        };
    }
    let k = rows::home(setup, c);
    if serving::is_spent(q.service.server, usize::from(c.0)) {
        return Outcome {
            answer: Answer::SpentAlready,
            queues: q,
        };
    }
    if !presence::waits(q.lines[k.0], q.rooms[k.0], c) {
        return Outcome {
            answer: Answer::NotWaiting,
            queues: q,
        };
    }
    let n = leaving::aborted(q, setup, keys, c);
    due(keys, setup, c, 0);
    Outcome {
        answer: Answer::Accepted,
        queues: n,
    }
}
