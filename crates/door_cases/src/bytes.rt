// Byte by byte, the gate that the bytes of gates.rt say.

ghost use Rattle.std.specs.Prelude.{◌≤◌, ◌<◌};

use crate::gates::{
    BACKGROUND, CHARGES, DEADLINES, GLOBAL, HOMES, KINDS, LINES, PRIORITIES, ROOMS, SERVER, SIZES,
    TIMED, UNITS,
};
use gate::{Client, Gate, Server, Setup};

fn client_byte(c: Client, code: u8, j: usize) -> u8
    requires { j < 3 }
{
    if j == 0 {
        return code;
    }
    c.0.to_le_bytes()[j - 1]
}

fn server_byte(s: Server, j: usize) -> u8
    requires { j < 3 }
{
    match s {
        Server::Idle => 0,
        Server::Front(c) => client_byte(c, 1, j),
        Server::Best(c) => client_byte(c, 2, j),
        Server::Spent(c) => client_byte(c, 3, j),
        Server::Tidying => client_byte(Client(0), 4, j),
    }
}

fn setup_byte(s: Setup, i: usize) -> u8
    requires { i < 271 }
{
    if i >= KINDS {
        return row_byte(s, i);
    }
    if i == 0 {
        return s.clusters;
    }
    if i == 1 {
        return s.clients;
    }
    if i < 4 {
        return s.cap.to_le_bytes()[i - 2];
    }
    if i < TIMED {
        return s.tidy.to_le_bytes()[i - 4];
    }
    if i < SIZES {
        return u8::from(s.timed);
    }
    s.sizes[i - SIZES]
}

// A byte of the kinds, clusters and priorities.
fn row_byte(s: Setup, i: usize) -> u8
    requires { (15 ≤ i) × (i < 271) }
{
    if i < HOMES {
        return s.kinds[i - KINDS];
    }
    if i < PRIORITIES {
        return s.homes[i - HOMES];
    }
    s.priorities[(i - PRIORITIES) / 2].to_le_bytes()[(i - PRIORITIES) % 2]
}

// A byte of the lines, the waiting rooms and the global queue.
fn queue_byte(g: Gate, i: usize) -> u8
    requires { (271 ≤ i) × (i < 407) }
{
    if i < ROOMS {
        let line = g.lines[(i - LINES) / 8];
        return line.places[(i - LINES) % 8];
    }
    if i < GLOBAL {
        return g.rooms[(i - ROOMS) / 8].to_le_bytes()[(i - ROOMS) % 8];
    }
    g.global[i - GLOBAL]
}

// A byte of the background queue, the server, the units, the charges and the deadlines.
fn service_byte(g: Gate, i: usize) -> u8
    requires { (407 ≤ i) × (i < 990) }
{
    if i < SERVER {
        return g.background[i - BACKGROUND];
    }
    if i < UNITS {
        return server_byte(g.server, i - SERVER);
    }
    if i < CHARGES {
        return g.units.to_le_bytes()[i - UNITS];
    }
    if i < DEADLINES {
        return g.charges[(i - CHARGES) / 4].to_le_bytes()[(i - CHARGES) % 4];
    }
    g.deadlines[(i - DEADLINES) / 4].to_le_bytes()[(i - DEADLINES) % 4]
}

// Byte i of a gate.
pub fn byte_of(g: Gate, i: usize) -> u8
    requires { i < 990 }
{
    if i < LINES {
        return setup_byte(g.setup, i);
    }
    if i < BACKGROUND {
        return queue_byte(g, i);
    }
    service_byte(g, i)
}
