// A gate as bytes: every field in its turn, numbers with their low byte first. K, N, L, W, 1 for deadlines or 0 for
// priorities, 8 sizes, 64 kinds, 64 clusters, 64 priorities, 8 lines of 8 places, 8 waiting rooms, 8 places of the
// global queue, 64 of the background queue, the server's case and its client (0 when idle or tidying), the units served
// or tidied, 64 charges, 64 deadlines.

ghost use Rattle.std.specs.Prelude.{◌+◌, ◌≤◌};

use gate::{Client, Gate, Line, Server, Setup};
use layout::{byte_at, double_at, word_at};
use std::array;

// The bytes of a gate.
pub const GATE: usize = 990;

// Where each field begins.
pub const TIMED: usize = 6;

pub const SIZES: usize = 7;

pub const KINDS: usize = 15;

pub const HOMES: usize = 79;

pub const PRIORITIES: usize = 143;

pub const LINES: usize = 271;

pub const ROOMS: usize = 335;

pub const GLOBAL: usize = 399;

pub const BACKGROUND: usize = 407;

pub const SERVER: usize = 471;

pub const UNITS: usize = 474;

pub const CHARGES: usize = 478;

pub const DEADLINES: usize = 734;

// The N bytes from i on.
fn bytes_at<const N: usize>(b: &[u8], i: usize) -> [u8; N]
    requires { i + N ≤ 990 }
{
    array::from_fn(|k| byte_at(b, i + k))
}

// 64 bits.
fn set_at(b: &[u8], i: usize) -> u64
    requires { i + 8 ≤ 990 }
{
    u64::from_le_bytes(bytes_at(b, i))
}

// 1 a front, 2 a best-effort client, 3 a spent client, 4 tidying; idle for 0, and for what is no case.
fn server_in(b: &[u8]) -> Server {
    let c = Client(word_at(b, SERVER + 1));
    match byte_at(b, SERVER) {
        1 => Server::Front(c),
        2 => Server::Best(c),
        3 => Server::Spent(c),
        4 => Server::Tidying,
        _ => Server::Idle,
    }
}

// Any byte but 0 says deadlines.
fn setup_in(b: &[u8]) -> Setup {
    Setup {
        clusters: byte_at(b, 0),
        clients: byte_at(b, 1),
        cap: word_at(b, 2),
        tidy: word_at(b, 4),
        timed: byte_at(b, TIMED) != 0,
        sizes: bytes_at(b, SIZES),
        kinds: bytes_at(b, KINDS),
        homes: bytes_at(b, HOMES),
        priorities: array::from_fn(|i| word_at(b, PRIORITIES + 2 * i)),
    }
}

// The gate of some bytes.
pub fn gate_in(b: &[u8]) -> Gate {
    Gate {
        setup: setup_in(b),
        lines: array::from_fn(|i| Line {
            places: bytes_at(b, LINES + 8 * i),
        }),
        rooms: array::from_fn(|i| set_at(b, ROOMS + 8 * i)),
        global: bytes_at(b, GLOBAL),
        background: bytes_at(b, BACKGROUND),
        server: server_in(b),
        units: double_at(b, UNITS),
        charges: array::from_fn(|i| double_at(b, CHARGES + 4 * i)),
        deadlines: array::from_fn(|i| double_at(b, DEADLINES + 4 * i)),
    }
}
