// Call.
ghost use Rattle.std.specs.Prelude.{◌≡◌, ◌<◌};
ghost use Rattle.places.specs.Places.{append_of};
ghost use Rattle.group_rules.specs.Limits.{max_contexts};
ghost use Rattle.group_rules.specs.Events as rules;
ghost use Rattle.group_events.specs.Answers.{after_in, ruled};

use crate::{Refusal, context, server, serves, stack_of, tickets_of};
use group_rules::{Context, Group, Server, Stack};

// A stack with one more call on it.
fn pushed(s: Stack, server: Server) -> Stack
    ensures { result ≡ record { places = append_of server.0 s.places } }
{
    let mut q = s.places;
    places::append(&mut q, server.0);
    Stack { places: q }
}

// The call is pushed onto the context's stack.
fn called(g: Group, c: usize, s: Server) -> Group
    requires { c < max_contexts }
    ensures { result ≡ rules.called g c s.0 }
{
    let mut after = g;
    after.stacks[c] = pushed(stack_of(g, c), s);
    after
}

pub fn call(g: Group, c: Context, s: Server) -> Result<Group, Refusal>
    ensures { after_in g result ≡ ruled g (rules.call c.0 s.0) }
{
    let i = context(c)?;
    let j = server(s)?;
    serves(g, i)?;
    let own = tickets_of(g, i);
    if own.counts[j] == 0 {
        return Err(Refusal::NoTicket);
    }
    let stack = stack_of(g, i);
    if places::stands(&stack.places, s.0) {
        return Err(Refusal::OnStack);
    }
    if places::used(&stack.places) >= Group::MAX_DEPTH {
        return Err(Refusal::StackFull);
    }
    Ok(called(g, i, s))
}
