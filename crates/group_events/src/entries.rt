// Entry.
ghost use Rattle.std.specs.Prelude.{◌≡◌, not, ◌&&◌, [], ◌∷◌, ◌<◌, leb};
ghost use Rattle.group_rules.specs.Limits.{max_contexts};
ghost use Rattle.group_rules.specs.Groups.{stack_with};
ghost use Rattle.group_rules.specs.Events as rules;
ghost use Rattle.group_events.specs.Answers.{after_in, ruled};

use crate::{Refusal, context, server, stack_of};
use blocking::is_queued;
use group_rules::{Context, Group, Server, Stack, Tickets};

// A stack with the first call on it.
fn first_call(s: Server) -> Stack
    ensures { result ≡ stack_with (s.0 ∷ []) }
{
    let mut q = [places::UNUSED; 8];
    q[0] = s.0;
    Stack { places: q }
}

// The context is queued with its timestamp, tickets and first call.
fn entered(g: Group, c: usize, time: u64, first: Server, tickets: Tickets) -> Group
    requires { c < max_contexts }
    ensures { result ≡ rules.entered g c time first.0 tickets.counts }
{
    let mut after = g;
    after.entered = true;
    after.last = time;
    after.times[c] = time;
    after.tickets[c] = tickets;
    after.stacks[c] = first_call(first);
    after
}

// Whether a timestamp comes after that of every entry before.
fn is_later(entered: bool, last: u64, time: u64) -> bool
    ensures { result ≡ not (entered && leb time last) }
{
    !entered || last < time
}

pub fn entry(
    g: Group,
    c: Context,
    time: u64,
    first: Server,
    tickets: Tickets,
) -> Result<Group, Refusal>
    ensures { after_in g result ≡ ruled g (rules.entry c.0 time first.0 tickets.counts) }
{
    let i = context(c)?;
    let s = server(first)?;
    if is_queued(stack_of(g, i)) {
        return Err(Refusal::QueuedAlready);
    }
    if !group_sound::few_tickets(tickets) {
        return Err(Refusal::ManyTickets);
    }
    if tickets.counts[s] == 0 {
        return Err(Refusal::NoFirstTicket);
    }
    if !is_later(g.entered, g.last, time) {
        return Err(Refusal::NotLater);
    }
    Ok(entered(g, i, time, first, tickets))
}
