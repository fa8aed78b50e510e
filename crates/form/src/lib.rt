// Orders out of an input that comes in parts, and their answers as lines of text.
#![tactic(auto)]

mod line;

ghost use Rattle.std.specs.Prelude.{◌≡◌, ◌∷◌, [], ◌+◌, ◌*◌, ◌≤◌, min, length, take, set};
ghost use Rattle.io.specs.Counts.{IsPrefixLen};
ghost use Rattle.text.specs.Text.{WroteAt};
ghost use Rattle.order.specs.Orders.{asked};
ghost use Rattle.form.specs.Input.{without_cr};
ghost use Rattle.form.specs.Output.{line, line_bytes};
ghost use Rattle.form.specs.Parts.{room_bytes, none_held, standing, Answered, EndAnswered};

use line::put_answer;
use text::{CR, LF};

// The most bytes of a part.
pub const PART: usize = 4096;

// Room for an order with a CR, and one byte more: what is longer need not be held to be refused.
const ROOM: usize = order::MAX_BYTES + 2;

// Room for the answers to a part: an order has a byte in it at least, its LF.
pub const OUT: usize = PART * line::MOST;

// What is held of the order that has not ended, the first n bytes of a room, and how many bytes were written.
#[derive(Clone, Copy)]
pub struct Held {
    room: [u8; ROOM],
    n: usize,
    pub used: usize,
}

// Nothing is held, as before an input.
pub fn none_held() -> Held
    ensures { result ≡ none_held }
{
    Held {
        room: [0; ROOM],
        n: 0,
        used: 0,
    }
}

// Answers the orders that end in the first k bytes of a part, after what is held of the first one.
pub fn answer_part(held: Held, part: &[u8; PART], k: usize, out: &mut [u8; OUT]) -> Held
    ensures prefix_len { IsPrefixLen result.used out.new }
    ensures answered { Answered (take k part.now) held.room held.n result.room
        out.old 0 out.new (standing result) }
{
    let mut room = held.room;
    let n = held.n.min(ROOM);
    let bytes: &[u8] = part;
    let end = k.min(PART);
    let s = answer_bytes(&bytes[..end], &mut room, n, out);
    Held {
        room,
        n: s.n,
        used: s.used,
    }
}

// Answers the order that the end of the input ends, of which some bytes are held.
pub fn answer_end(held: Held, out: &mut [u8; OUT]) -> usize
    ensures prefix_len { IsPrefixLen result out.new }
    ensures end_answered { EndAnswered (take held.n held.room) out.old out.new result }
{
    let room = held.room;
    let n = held.n.min(ROOM);
    if n == 0 {
        return 0;
    }
    answer(&room, n, out, 0)
}

// How many bytes are held, and how many were written.
#[derive(Clone, Copy)]
struct Standing {
    n: usize,
    used: usize,
}

// The same for a part of any length, with room for what is held and for the answers.
fn answer_bytes(part: &[u8], room: &mut [u8], n: usize, out: &mut [u8]) -> Standing
    requires room_len { (length room.old ≡ room_bytes) × (n ≤ room_bytes) }
    requires line_bytes_in_bounds { length part.now * line_bytes ≤ length out.old }
    ensures answered { Answered part.now room.old n room.new
        out.old 0 out.new result }
    ensures used_in_bounds { result.used ≤ length out.old }
{
    let mut held = n;
    let mut used = 0;
    for b in part {
        let s = take_byte(*b, room, held, out, used);
        held = s.n;
        used = s.used;
    }
    Standing { n: held, used }
}

// One byte: an LF ends the order, and its answer is written from a place on; another byte is held.
fn take_byte(b: u8, room: &mut [u8], n: usize, out: &mut [u8], at: usize) -> Standing
    requires room_len { (length room.old ≡ room_bytes) × (n ≤ room_bytes) }
    requires line_bytes_in_bounds { at + line_bytes ≤ length out.old }
    ensures answered { Answered (b ∷ []) room.old n room.new
        out.old at out.new result }
    ensures used_bound { result.used ≤ at + line_bytes }
{
    if b == LF {
        let k = without_cr(room, n);
        return Standing {
            n: 0,
            used: answer(room, k, out, at),
        };
    }
    Standing {
        n: put(room, n, b),
        used: at,
    }
}

// The answer to the order of the first n bytes, from a place on.
fn answer(room: &[u8], n: usize, out: &mut [u8], at: usize) -> usize
    requires n_in_bounds { n ≤ length room.now }
    requires line_bytes_in_bounds { at + line_bytes ≤ length out.old }
    ensures wrote_at { WroteAt at (line (asked (take n room.now))) out.old out.new result }
    ensures upper_bound { result ≤ at + line_bytes }
{
    put_answer(out, at, order::ask(&room[..n]))
}

// How many of the first k bytes are the order's.
fn without_cr(room: &[u8], k: usize) -> usize
    requires { k ≤ length room.now }
    ensures { (result ≤ k) × (take result room.now ≡ without_cr (take k room.now)) }
{
    if k == 0 {
        return 0;
    }
    if room[k - 1] == CR { k - 1 } else { k }
}

// One byte more, if there is room.
fn put(room: &mut [u8], k: usize, b: u8) -> usize
    requires { k ≤ length room.old }
    ensures value { result ≡ min (k + 1) (length room.old) }
    ensures room_after { room.new ≡ set room.old k b }
{
    if k < room.len() {
        room[k] = b;
        k + 1
    } else {
        k
    }
}
