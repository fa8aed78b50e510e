// Reply.
ghost use Rattle.std.specs.Prelude.{◌≡◌, true, ◌-◌, ◌<◌, ◌≤◌, length, get_or, set};
ghost use Rattle.rules.specs.Limits.{unused_place};
ghost use Rattle.group_rules.specs.Limits.{max_contexts, max_servers, max_depth};
ghost use Rattle.group_rules.specs.Groups.{tickets_for, calls_of};
ghost use Rattle.group_rules.specs.Blocking.{current_of};
ghost use Rattle.group_rules.specs.Sound.{sound_of};
ghost use Rattle.group_rules.specs.Events as rules;
ghost use Rattle.group_events.specs.Answers.{after_in, ruled};

use crate::{Refusal, context, serves, stack_of, tickets_of};
use group_rules::{Context, Group, Stack, Tickets, no_calls, no_tickets};

// A stack of n calls without the one on top.
fn without_top(s: Stack, n: usize) -> Stack
    requires { (0 < n) × (n ≤ max_depth) }
    ensures { result ≡ record { places = set s.places (n - 1) unused_place } }
{
    let mut q = s.places;
    q[n - 1] = places::UNUSED;
    Stack { places: q }
}

// The server on top of a stack of n calls.
fn top_of(s: Stack, n: usize) -> usize
    requires { (0 < n) × (n ≤ max_depth) }
    ensures { result ≡ get_or s.places (n - 1) 0 }
{
    usize::from(s.places[n - 1])
}

// One ticket for a server is used up.
fn used_up(t: Tickets, s: usize) -> Tickets
    requires { (s < max_servers) × (0 < get_or t.counts s 0) }
    ensures { result ≡ record { counts = set t.counts s (get_or t.counts s 0 - 1) } }
{
    let mut counts = t.counts;
    counts[s] -= 1;
    Tickets { counts }
}

// The call on top of n is popped, and one ticket for its server is used up.
fn popped(g: Group, c: usize, n: usize) -> Group
    requires c_lt_max_contexts { (c < max_contexts) × (n ≡ length (calls_of g c)) × (0 < n) × (n ≤ max_depth) }
    requires c_bound { (current_of g c < max_servers) × (0 < tickets_for g c (current_of g c)) }
    ensures { result ≡ rules.popped g c }
{
    let stack = stack_of(g, c);
    let mut after = g;
    after.tickets[c] = used_up(tickets_of(g, c), top_of(stack, n));
    after.stacks[c] = without_top(stack, n);
    after
}

// The context leaves the queue, and nothing is held of it.
fn gone(g: Group, c: usize) -> Group
    requires { c < max_contexts }
    ensures { result ≡ rules.gone g c }
{
    let mut after = g;
    after.times[c] = 0;
    after.tickets[c] = no_tickets();
    after.stacks[c] = no_calls();
    after
}

pub fn reply(g: Group, c: Context) -> Result<Group, Refusal>
    requires { sound_of g ≡ true }
    ensures { after_in g result ≡ ruled g (rules.reply c.0) }
{
    let i = context(c)?;
    serves(g, i)?;
    let stack = stack_of(g, i);
    let n = places::used(&stack.places);
    if n == 1 {
        return Ok(gone(g, i));
    }
    Ok(popped(g, i, n))
}
