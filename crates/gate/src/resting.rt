// A gate at rest, and the setups that one is made of: with zeros past N and K, or empty.

ghost use Rattle.std.specs.Prelude.{◌≡◌};
ghost use Rattle.rules.specs.State.{fresh};
ghost use Rattle.gate.specs.Shown.{shown};
ghost use Rattle.gate.specs.Made.{trimmed_in, empty_bytes};

use crate::{Gate, Line, Server, Setup};

// The setup with zeros past N and K.
pub fn trimmed(mut s: Setup) -> Setup
    ensures { result ≡ trimmed_in s }
{
    let k = usize::from(s.clusters).min(Gate::MAX_CLUSTERS);
    let n = usize::from(s.clients).min(Gate::MAX_CLIENTS);
    s.sizes[k..].fill(0);
    s.kinds[n..].fill(0);
    s.homes[n..].fill(0);
    s.priorities[n..].fill(0);
    s
}

// The setup of the empty gate.
pub fn empty_setup() -> Setup
    ensures { result ≡ empty_bytes }
{
    Setup {
        clusters: 0,
        clients: 0,
        cap: 0,
        tidy: 0,
        timed: false,
        sizes: [0u8; 8],
        kinds: [0u8; 64],
        homes: [0u8; 64],
        priorities: [0u16; 64],
    }
}

// A gate of that setup in which nobody waits.
pub fn at_rest(s: Setup) -> Gate
    ensures { result ≡ shown s fresh }
{
    let line = Line {
        places: [places::UNUSED; 8],
    };
    Gate {
        setup: s,
        lines: [line; 8],
        rooms: [0u64; 8],
        global: [places::UNUSED; 8],
        background: [places::UNUSED; 64],
        server: Server::Idle,
        units: 0,
        charges: [0u32; 64],
        deadlines: [0u32; 64],
    }
}
