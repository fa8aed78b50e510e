// What an event answers, with its number, and what its function returns.
#![tactic(auto)]

ghost use Rattle.std.specs.Prelude.{◌≡◌};
ghost use Rattle.answers.specs.Answers.{number_of};

use parts::Queues;

// What an event answers. Unknown is for an invoke without the form that its setup calls for, and for a record that is
// no event.
#[derive(Clone, Copy)]
pub enum Answer {
    Accepted,
    NoClient,
    WaitsAlready,
    ServerIdle,
    RunOfNone,
    RunPastCap,
    NotWaiting,
    BestEffort,
    SpentAlready,
    Unknown,
    Unsound,
    NotTidying,
}

// The queues after an event, and the answer. In this order no copy of the queues begins inside a word.
#[derive(Clone, Copy)]
pub struct Outcome {
    pub queues: Queues,
    pub answer: Answer,
}

// An answer's number.
pub fn number(a: Answer) -> u64
    ensures { result ≡ number_of a }
{
    match a {
        Answer::Accepted => 0,
        Answer::NoClient => 10,
        Answer::WaitsAlready => 11,
        Answer::ServerIdle => 12,
        Answer::RunOfNone => 13,
        Answer::RunPastCap => 14,
        Answer::NotWaiting => 15,
        Answer::BestEffort => 16,
        Answer::SpentAlready => 17,
        Answer::Unknown => 18,
        Answer::Unsound => 19,
        Answer::NotTidying => 26,
    }
}
