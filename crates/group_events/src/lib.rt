// What an event answers, and what it returns; and entry, call and reply, each with its answer.
#![tactic(auto)]

mod calls;
mod entries;
mod replies;

ghost use Rattle.std.specs.Prelude.{◌≡◌, true, ◌<◌, ◌≤◌, get_or, MatchResult};
ghost use Rattle.rules.specs.Refusals.{accepted};
ghost use Rattle.group_rules.specs.Limits.{max_contexts, max_servers};
ghost use Rattle.group_rules.specs.Groups.{no_tickets, no_calls, queued};
ghost use Rattle.group_rules.specs.Blocking.{committed};
ghost use Rattle.group_rules.specs.Events.{serves};
ghost use Rattle.group_events.specs.declared.Refusal.TheVariants.{NoSuch};
ghost use Rattle.group_events.specs.Answers.{number_of, after_in, told_in};

use blocking::is_queued;
pub use calls::call;
pub use entries::entry;
use group_rules::{Context, Group, Server, Stack, Tickets};
pub use replies::reply;

// What an event or a question is refused for.
#[derive(Clone, Copy)]
pub enum Refusal {
    Unsound,
    NoSuch,
    QueuedAlready,
    ManyTickets,
    NoFirstTicket,
    NotLater,
    NotQueued,
    NotCommitted,
    NoTicket,
    OnStack,
    StackFull,
}

// What an event or a question answers: it is accepted, or refused.
pub type Answer = Result<(), Refusal>;

// An answer's number, whatever an accepted one hands over.
pub fn number<T: Drop>(a: Result<T, Refusal>) -> u64
    ensures { result ≡ number_of a }
{
    match a {
        Ok(_) => 0,
        Err(Refusal::Unsound) => 19,
        Err(Refusal::NoSuch) => 40,
        Err(Refusal::QueuedAlready) => 41,
        Err(Refusal::ManyTickets) => 42,
        Err(Refusal::NoFirstTicket) => 43,
        Err(Refusal::NotLater) => 44,
        Err(Refusal::NotQueued) => 45,
        Err(Refusal::NotCommitted) => 46,
        Err(Refusal::NoTicket) => 47,
        Err(Refusal::OnStack) => 48,
        Err(Refusal::StackFull) => 49,
    }
}

// The answer, and the group after. It stays a struct for `group_step.Theorems.refused-same`: a refused event hands back
// the group, which an Err of a Result would not have.
#[derive(Clone, Copy)]
pub struct Answered {
    pub answer: Answer,
    pub group: Group,
}

// What an event on g returns, by the group after it, or its refusal.
pub fn returned(g: Group, after: Result<Group, Refusal>) -> Answered
    ensures { told_in result ≡ after_in g after }
{
    match after {
        Ok(group) => Answered {
            answer: Ok(()),
            group,
        },
        Err(refusal) => Answered {
            answer: Err(refusal),
            group: g,
        },
    }
}

// WHO IS THERE

// A number as an index below n.
fn index_below(n: usize, number: u8) -> Result<usize, Refusal>
    ensures { MatchResult result (λ i. (i ≡ number) × (i < n)) (λ e. (e ≡ NoSuch) × (n ≤ number)) }
{
    let i = usize::from(number);
    if i < n { Ok(i) } else { Err(Refusal::NoSuch) }
}

// The index of a context.
pub fn context(c: Context) -> Result<usize, Refusal>
    ensures { MatchResult result (λ i. (i ≡ c.0) × (i < max_contexts)) (λ e. (e ≡ NoSuch) × (max_contexts ≤ c.0)) }
{
    index_below(Group::MAX_CONTEXTS, c.0)
}

// The index of a server.
fn server(s: Server) -> Result<usize, Refusal>
    ensures { MatchResult result (λ i. (i ≡ s.0) × (i < max_servers)) (λ e. (e ≡ NoSuch) × (max_servers ≤ s.0)) }
{
    index_below(Group::MAX_SERVERS, s.0)
}

// WHAT THE GROUP HOLDS OF A CONTEXT

fn tickets_of(g: Group, c: usize) -> Tickets
    requires { c < max_contexts }
    ensures { result ≡ get_or g.tickets c no_tickets }
{
    g.tickets[c]
}

pub fn stack_of(g: Group, c: usize) -> Stack
    requires { c < max_contexts }
    ensures { result ≡ get_or g.stacks c no_calls }
{
    g.stacks[c]
}

// Whether a queued context is committed.
fn is_committed(g: Group, c: usize) -> bool
    requires { (c < max_contexts) × (queued g c ≡ true) }
    ensures { result ≡ committed g c }
{
    let sets = blocking::queued_sets(g.tickets, g.stacks);
    blocking::blocker(&g.times, &sets, c).is_none()
}

// Whether the server of a context's current request serves it.
fn serves(g: Group, c: usize) -> Answer
    requires { c < max_contexts }
    ensures { number_of result ≡ serves g c accepted }
{
    if !is_queued(stack_of(g, c)) {
        return Err(Refusal::NotQueued);
    }
    if !is_committed(g, c) {
        return Err(Refusal::NotCommitted);
    }
    Ok(())
}
