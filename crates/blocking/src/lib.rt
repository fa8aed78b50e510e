// Who blocks whom in a group's queue. Tickets are counts; the servers that they are for are sets, as words.
#![tactic(auto)]

ghost use Rattle.std.specs.Prelude.{◌≡◌, ◌-◌, ◌<◌, ◌≤◌, length, get_or, IfSome};
ghost use Rattle.std.specs.Option.{ForSome};
ghost use Rattle.group_rules.specs.Limits.{max_contexts, max_depth};
ghost use Rattle.group_rules.specs.Groups.{has_call};
ghost use Rattle.group_rules.specs.Blocking.{server, to_blocker};
ghost use Rattle.blocking.specs.Queue.{with_ticket, ticket_set, queued_set, SetsOf};
ghost use Rattle.blocking.specs.Queue.{found_in, blocks_in, later_of, blocker_in};
ghost use Rattle.blocking.specs.Delegates.{told_of, delegate_in};

use group_rules::{Context, Group, Server, Stack, Tickets};

// To whom a context delegates its bandwidth. These are the three cases that the rules have: an Option of the other two
// would say them no plainer.
#[derive(Clone, Copy)]
pub enum Delegate {
    Nobody,
    Server(Server),
    Context(Context),
}

// Whether a context with this stack is queued: its first call is on it.
pub fn is_queued(s: Stack) -> bool
    ensures { result ≡ has_call s.places }
{
    s.places[0] != places::UNUSED
}

// A set with server s, if there are tickets for it.
fn with_ticket(set: u64, n: u8, s: usize) -> u64
    ensures { result ≡ with_ticket set n s }
{
    if n == 0 { set } else { sets::with(set, s) }
}

// The servers that there are tickets for.
pub fn ticket_set(t: Tickets) -> u64
    ensures { result ≡ ticket_set t.counts }
{
    let mut set = 0;
    for (s, n) in t.counts.iter().enumerate() {
        set = with_ticket(set, *n, s);
    }
    set
}

// The same of a context that is queued; none of one that isn't.
fn queued_set(t: Tickets, s: Stack) -> u64
    ensures { result ≡ queued_set t.counts s.places }
{
    if is_queued(s) { ticket_set(t) } else { 0 }
}

// The same of each context.
pub fn queued_sets(tickets: [Tickets; 8], stacks: [Stack; 8]) -> [u64; 8]
    ensures { (length result ≡ max_contexts) × SetsOf tickets stacks result }
{
    let mut sets = [0; 8];
    for (c, set) in sets.iter_mut().enumerate() {
        *set = queued_set(tickets[c], stacks[c]);
    }
    sets
}

// Whether b prevents c from being committed: it is earlier, and both have tickets for the same server.
fn blocks<'a>(times: &'a [u64; 8], sets: &'a [u64; 8], c: usize, b: usize) -> bool
    requires { (c < max_contexts) × (b < max_contexts) }
    ensures { result ≡ blocks_in times.now sets.now c b }
{
    times[b] < times[c] && sets::common(sets[b], sets[c]) != 0
}

// Of b and the one found before it, if there is one, the later.
fn later<'a>(times: &'a [u64; 8], found: Option<usize>, b: usize) -> usize
    requires found_bound { ForSome found (λ a. a < max_contexts) }
    requires b_bound { b < max_contexts }
    ensures { result ≡ later_of times.now (found_in found) b }
{
    match found {
        Some(a) if times[a] >= times[b] => a,
        _ => b,
    }
}

// Who blocks c directly, by the timestamps and what `queued_sets` gives: the latest of those that prevent it, if there
// is one.
pub fn blocker<'a>(times: &'a [u64; 8], sets: &'a [u64; 8], c: usize) -> Option<usize>
    requires { c < max_contexts }
    ensures value { found_in result ≡ blocker_in times.now sets.now c }
    ensures upper_bound { IfSome result (λ b. b < max_contexts) }
{
    let mut found = None;
    for b in 0..Group::MAX_CONTEXTS {
        if blocks(times, sets, c, b) {
            found = Some(later(times, found, b));
        }
    }
    found
}

// The context that was found, or nobody.
pub fn context_of(found: Option<usize>) -> Delegate
    requires { ForSome found (λ b. b < max_contexts) }
    ensures { told_of result ≡ to_blocker (found_in found) }
{
    match found {
        None => Delegate::Nobody,
        Some(b) => Delegate::Context(Context(b as u8)),
    }
}

// The server on top of a stack with so many calls.
fn top(s: Stack, n: usize) -> Delegate
    requires { (0 < n) × (n ≤ max_depth) }
    ensures { told_of result ≡ server (get_or s.places (n - 1) 0) }
{
    Delegate::Server(Server(s.places[n - 1]))
}

// To whom c delegates, by the timestamps, what `queued_sets` gives, and its stack: a committed one to the server on top
// of it, another to the context that blocks it directly.
pub fn delegates_to<'a>(times: &'a [u64; 8], sets: &'a [u64; 8], s: Stack, c: usize) -> Delegate
    requires { c < max_contexts }
    ensures { told_of result ≡ delegate_in times.now sets.now s.places c }
{
    if !is_queued(s) {
        return Delegate::Nobody;
    }
    match blocker(times, sets, c) {
        None => top(s, places::used(&s.places)),
        found => context_of(found),
    }
}
