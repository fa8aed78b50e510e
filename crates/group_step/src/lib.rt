// The doors of a group: one event on any group whatever, with the check of soundness; who blocks a context, and to whom
// it delegates. Beside them the inner door for callers that hold a sound group: the same without the check, and it
// keeps soundness.
#![tactic(auto)]

ghost use Rattle.std.specs.Prelude.{◌≡◌, true, ◌<◌, IfOk};
ghost use Rattle.group_rules.specs.Limits.{max_contexts};
ghost use Rattle.group_rules.specs.Groups.{queued};
ghost use Rattle.group_rules.specs.Sound.{sound_of};
ghost use Rattle.group_rules.specs.Events.{said};
ghost use Rattle.group_events.specs.Answers.{number_of, told_in, after_in, ruled};
ghost use Rattle.group_step.specs.Doors.{stepped, ask_answer, named_in, blocked_by, delegates_to};

use blocking::{Delegate, context_of, is_queued};
use group_events::{Answered, Refusal, call, context, entry, reply, returned, stack_of};
use group_rules::{Context, Event, Group, Tickets};

// THE INNER DOOR

// The group after an event on a sound group, or its refusal.
fn after(g: Group, e: Event, tickets: Tickets) -> Result<Group, Refusal>
    requires { sound_of g ≡ true }
    ensures { after_in g result ≡ ruled g (said e tickets) }
{
    match e {
        Event::Entry(c, time, first) => entry(g, c, time, first, tickets),
        Event::Call(c, s) => call(g, c, s),
        Event::Reply(c) => reply(g, c),
    }
}

// An event on a sound group. The tickets are those that an entry brings; of other events they are not looked at.
pub fn sound_step(g: Group, e: Event, tickets: Tickets) -> Answered
    requires { sound_of g ≡ true }
    ensures result_value { told_in result ≡ stepped g (said e tickets) }
    ensures group_value { sound_of result.group ≡ true }
{
    returned(g, after(g, e, tickets))
}

// THE PUBLIC DOORS

// An event on any group: 19 before all else.
pub fn step(g: Group, e: Event, tickets: Tickets) -> Answered
    ensures { told_in result ≡ stepped g (said e tickets) }
{
    if !group_sound::sound(g) {
        return Answered {
            answer: Err(Refusal::Unsound),
            group: g,
        };
    }
    sound_step(g, e, tickets)
}

// The index of a context about which a question is answered: 19, 40, 45.
fn ask(g: Group, c: Context) -> Result<usize, Refusal>
    ensures answer { number_of result ≡ ask_answer g c.0 }
    ensures index { IfOk result (λ i. i ≡ c.0) }
{
    if !group_sound::sound(g) {
        return Err(Refusal::Unsound);
    }
    let i = context(c)?;
    if !is_queued(stack_of(g, i)) {
        return Err(Refusal::NotQueued);
    }
    Ok(i)
}

// Who blocks a context directly: nobody, if it is committed.
pub fn blocker(g: Group, c: Context) -> Result<Delegate, Refusal>
    ensures { named_in result ≡ blocked_by g c.0 }
{
    let i = ask(g, c)?;
    let sets = blocking::queued_sets(g.tickets, g.stacks);
    let found = blocking::blocker(&g.times, &sets, i);
    Ok(context_of(found))
}

// To whom a context delegates its bandwidth: the server of its current request, or the context that blocks it directly.
pub fn delegate(g: Group, c: Context) -> Result<Delegate, Refusal>
    ensures { named_in result ≡ delegates_to g c.0 }
{
    let i = ask(g, c)?;
    let sets = blocking::queued_sets(g.tickets, g.stacks);
    Ok(blocking::delegates_to(&g.times, &sets, stack_of(g, i), i))
}
