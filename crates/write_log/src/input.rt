// An input: the room that it asks for, a decimal number from 0 to 65,535 that an LF ends, and a log behind that.

ghost use Rattle.std.specs.Prelude.{◌≡◌, ◌≤◌, length};
ghost use Rattle.std.specs.Io.{ReadsAtMost};
ghost use Rattle.streams.specs.Reads.{ReadsWhole};
ghost use Rattle.write_log.specs.Sizes.{input_bytes};
ghost use Rattle.write_log.specs.Within.{Within};

use layout::{MAX_LOG, byte_at};
use std::io::Read;
use streams::{Failure, read_whole};
use text::LF;

// The largest room.
pub const MAX_ROOM: usize = 65535;

// The digits of that.
const DIGITS: usize = 5;

// Room for the longest input, and one byte more: what is longer need not be held to be refused.
pub const INPUT: usize = DIGITS + 1 + MAX_LOG + 1;

// The room that an input asks for, and where its log begins.
#[derive(Clone, Copy)]
pub struct Asked {
    pub room: usize,
    pub log: usize,
}

// Standard input, to its end or as far as the array goes.
pub fn read_input<R: Read>(stdin: &mut R, input: &mut [u8; INPUT]) -> Result<usize, Failure>
    ensures holds { ReadsAtMost result input.new × (length input.new ≡ input_bytes) }
    ensures bytes { ReadsWhole (R.remaining stdin.old) (R.remaining stdin.new) input.new result }
{
    read_whole(stdin, input)
}

// What an input asks for, or that it asks for nothing: some digits, whose number is not too large, and an LF.
pub fn room_in(input: &[u8]) -> Option<Asked>
    ensures { Within (length input.now) result }
{
    let mut room: usize = 0;
    for i in 0..DIGITS + 1 {
        let b = byte_at(input, i);
        if b == LF && i > 0 && room <= MAX_ROOM {
            return Some(Asked { room, log: i + 1 });
        }
        if !b.is_ascii_digit() {
            return None;
        }
        room = 10 * room + usize::from(b - b'0');
    }
    None
}
