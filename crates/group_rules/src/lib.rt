// A group of servers that call servers: its types and limits, and the group that nobody has entered.
#![tactic(auto)]

ghost use Rattle.std.specs.Prelude.{◌≡◌};
ghost use Rattle.group_rules.specs.Groups.{no_tickets, no_calls, none_entered};

// A context's number. Each processor has one context.
#[derive(Clone, Copy)]
pub struct Context(pub u8);

// A server's number.
#[derive(Clone, Copy)]
pub struct Server(pub u8);

// How many tickets a context has, by server.
#[derive(Clone, Copy)]
pub struct Tickets {
    pub counts: [u8; 16],
}

// The servers of a context's calls that are not answered, the first call first; unused places hold 255.
#[derive(Clone, Copy)]
pub struct Stack {
    pub places: [u8; 8],
}

// An event is one of three kinds, each with its own data. Entry: a context, its timestamp and the server of its first
// call; the tickets that it brings stand beside the event. Call: the server of the context's current request calls
// another. Reply: it replies.
#[derive(Clone, Copy)]
pub enum Event {
    Entry(Context, u64, Server),
    Call(Context, Server),
    Reply(Context),
}

// Whether anybody has entered, and the timestamp of the last entry; of each context its timestamp, its tickets and its
// stack. A context is queued while it has a call on its stack.
#[derive(Clone, Copy)]
pub struct Group {
    pub entered: bool,
    pub last: u64,
    pub times: [u64; 8],
    pub tickets: [Tickets; 8],
    pub stacks: [Stack; 8],
}

pub fn no_tickets() -> Tickets
    ensures { result ≡ no_tickets }
{
    Tickets { counts: [0; 16] }
}

pub fn no_calls() -> Stack
    ensures { result ≡ no_calls }
{
    Stack {
        places: [places::UNUSED; 8],
    }
}

impl Group {
    pub const MAX_CONTEXTS: usize = 8;

    pub const MAX_SERVERS: usize = 16;

    pub const MAX_TICKETS: u8 = 4;

    pub const MAX_DEPTH: usize = 8;

    // The group that nobody has entered.
    pub fn none_entered() -> Group
        ensures { result ≡ none_entered }
    {
        let t = no_tickets();
        let s = no_calls();
        Group {
            entered: false,
            last: 0,
            times: [0; 8],
            tickets: [t; 8],
            stacks: [s; 8],
        }
    }
}
