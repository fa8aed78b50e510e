// Events of a group as lines of text, out of an input that comes in parts; and the lines that tell what each did.
#![tactic(auto)]

mod reading;

ghost use Rattle.std.specs.Prelude.{◌≡◌, true};
ghost use Rattle.group_rules.specs.Sound.{sound_of};
ghost use Rattle.group_lines.specs.Parts.{none_held};

use group_rules::Group;
pub use reading::{read_end, read_part};

// The most bytes of a part.
pub const PART: usize = 1024;

// Room for a line of the most bytes, and one byte more: of what is longer no more need be held to be malformed.
const ROOM: usize = lines::MAX_LINE + 1;

// Room for what is told of a part: a line has a byte in it at least, its LF.
pub const OUT: usize = PART * group_tells::MOST;

// The group, how many events and lines have been read, and whether the last line was malformed.
#[derive(Clone, Copy)]
pub struct Run {
    pub group: Group,
    events: u64,
    lines: u64,
    pub malformed: bool,
}

// What has been read; the line that has begun, the first n bytes of a room; and how many bytes were written.
#[derive(Clone, Copy)]
pub struct Held {
    pub run: Run,
    room: [u8; ROOM],
    n: usize,
    pub used: usize,
}

// Where reading stands in a part: what has been read, how many bytes of a line are held, how many of the part were
// passed, and how many were written.
#[derive(Clone, Copy)]
struct Standing {
    run: Run,
    n: usize,
    at: usize,
    used: usize,
}

// What has been read, and how many bytes were written.
#[derive(Clone, Copy)]
struct Told {
    run: Run,
    used: usize,
}

// Nothing is held, as before an input: the group that nobody has entered.
pub fn none_held() -> Held
    ensures value { result ≡ none_held }
    ensures group_value { sound_of result.run.group ≡ true }
{
    let run = Run {
        group: Group::none_entered(),
        events: 0,
        lines: 0,
        malformed: false,
    };
    Held {
        run,
        room: [0; ROOM],
        n: 0,
        used: 0,
    }
}
