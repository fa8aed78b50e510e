// A kernel's trace out of an input that comes in parts, and the one line that tells its judgement.
#![tactic(auto)]

mod judging;
mod reading;

ghost use Rattle.std.specs.Prelude.{◌≡◌};
ghost use Rattle.checking.specs.Checking.{Going};
ghost use Rattle.traces.specs.Reading.{none_held};

use checking::Part;
pub use judging::{judge, put_judgement};
pub use reading::read_part;
use tracing::Trace;

// The most bytes of a part.
pub const PART: usize = 4096;

// Room for a line of the most bytes, and one byte more: of what is longer no more need be held to be malformed.
const ROOM: usize = lines::MAX_LINE + 1;

// Room for the line of any judgement.
pub const LINE: usize = 64;

// What has been read, and the line that has begun: the first n bytes of a room.
#[derive(Clone, Copy)]
pub struct Held {
    pub trace: Trace,
    room: [u8; ROOM],
    n: usize,
}

// What is printed: the number of the first line that is malformed; that of a setup's refusal; the first entry that
// differs, from 0, and in what; or how many entries are accepted.
#[derive(Clone, Copy)]
pub enum Judgement {
    Malformed(u64),
    Refused(u64),
    Differs(u64, Part),
    Accepted(u64),
}

// Where reading stands in a part: what has been read, how many bytes of a line are held, and how many of the part were
// passed.
#[derive(Clone, Copy)]
struct Standing {
    trace: Trace,
    n: usize,
    at: usize,
}

// Nothing is held, as before an input.
pub fn none_held() -> Held
    ensures value { result ≡ none_held }
    ensures going { Going result.trace.checker }
{
    let t = tracing::none_read();
    Held {
        trace: t,
        room: [0; ROOM],
        n: 0,
    }
}
