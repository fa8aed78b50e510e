// Whether a group is sound, in every clause of the definition. A group of any contents has an answer.
#![tactic(auto)]

ghost use Rattle.std.specs.Prelude.{◌≡◌, ◌||◌, eqb, ◌<◌};
ghost use Rattle.group_rules.specs.Limits.{max_contexts};
ghost use Rattle.group_rules.specs.Sound.{few_tickets, sound_of};
ghost use Rattle.group_sound.specs.Answers.{with_queued, queue_set, empty_of, has_time, time_fits};
ghost use Rattle.group_sound.specs.Answers.{stack_fits, context_fits};

use blocking::{is_queued, ticket_set};
use group_rules::{Group, Stack, Tickets};

// THE QUEUE

// A set with context c, if it is queued.
fn with_queued(queue: u64, s: Stack, c: usize) -> u64
    ensures { result ≡ with_queued queue s.places c }
{
    if is_queued(s) {
        sets::with(queue, c)
    } else {
        queue
    }
}

// The queued contexts, as a set.
fn queue_of(stacks: [Stack; 8]) -> u64
    ensures { result ≡ queue_set stacks }
{
    let mut queue = 0;
    for (c, s) in stacks.iter().enumerate() {
        queue = with_queued(queue, *s, c);
    }
    queue
}

// A CONTEXT

// No more than 4 tickets for any server.
pub fn few_tickets(t: Tickets) -> bool
    ensures { result ≡ few_tickets t.counts }
{
    t.counts.iter().all(|n| *n <= Group::MAX_TICKETS)
}

// Nothing is held of a context that isn't queued.
fn is_empty(time: u64, t: Tickets, s: Stack) -> bool
    ensures { result ≡ empty_of time t.counts s.places }
{
    time == 0
        && places::holds_only_from(&t.counts, 0, 0)
        && places::holds_only_from(&s.places, 0, places::UNUSED)
}

// Whether b is one of the others, and has the timestamp of c.
fn has_time<'a>(times: &'a [u64; 8], others: u64, c: usize, b: usize) -> bool
    requires { (c < max_contexts) × (b < max_contexts) }
    ensures { result ≡ has_time times.now others c b }
{
    times[b] == times[c] && sets::member(others, b)
}

// The timestamp of a queued context is not above the last entry's, and no other queued context has it.
fn time_sound(g: &Group, queue: u64, c: usize) -> bool
    requires { c < max_contexts }
    ensures { result ≡ time_fits g.now.entered g.now.last g.now.times queue c }
{
    if !g.entered || g.last < g.times[c] {
        return false;
    }
    let others = sets::without(queue, c);
    for b in 0..Group::MAX_CONTEXTS {
        if has_time(&g.times, others, c, b) {
            return false;
        }
    }
    true
}

// Different servers with tickets, and more than one only if nobody blocks the context.
fn stack_sound<'a>(times: &'a [u64; 8], sets: &'a [u64; 8], t: Tickets, s: Stack, c: usize) -> bool
    requires { c < max_contexts }
    ensures { result ≡ stack_fits times.now sets.now t.counts s.places c }
{
    if seen::queue_seen(&s.places, ticket_set(t), 0).is_none() {
        return false;
    }
    places::used(&s.places) <= 1 || blocking::blocker(times, sets, c).is_none()
}

// One context with these tickets and this stack, by the sets that its group's tickets give, and its queue.
fn context_sound<'a>(
    g: &'a Group,
    sets: &'a [u64; 8],
    queue: u64,
    t: Tickets,
    s: Stack,
    c: usize,
) -> bool
    requires { c < max_contexts }
    ensures { result ≡ context_fits g.now.entered g.now.last g.now.times sets.now queue
        t.counts s.places c }
{
    if is_queued(s) {
        time_sound(g, queue, c) && few_tickets(t) && stack_sound(&g.times, sets, t, s, c)
    } else {
        is_empty(g.times[c], t, s)
    }
}

// THE GROUP

// The timestamp of the last entry is 0 if nobody has entered.
fn last_sound(entered: bool, last: u64) -> bool
    ensures { result ≡ (entered || eqb last 0) }
{
    entered || last == 0
}

// Whether a group is sound.
pub fn sound(g: Group) -> bool
    ensures { result ≡ sound_of g }
{
    if !last_sound(g.entered, g.last) {
        return false;
    }
    let sets = blocking::queued_sets(g.tickets, g.stacks);
    let queue = queue_of(g.stacks);
    for c in 0..Group::MAX_CONTEXTS {
        if !context_sound(&g, &sets, queue, g.tickets[c], g.stacks[c], c) {
            return false;
        }
    }
    true
}
