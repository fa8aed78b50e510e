// A gate in parts: taken apart, and put together. Inner functions take the parts.
#![tactic(auto)]

ghost use Rattle.std.specs.Prelude.{◌≡◌};
ghost use Rattle.parts.specs.Parts.{queues_of, gate_of, keys_in, deadlines_in};

use gate::{Gate, Line, Server, Setup};

// Who is in service, and the units served so far on that request; while it tidies, the units tidied since the reply.
#[derive(Clone, Copy)]
pub struct Service {
    pub server: Server,
    pub units: u32,
}

// What events change of a gate, but the charges and the deadlines: who waits where, and who is in service.
#[derive(Clone, Copy)]
pub struct Queues {
    pub lines: [Line; 8],
    pub rooms: [u64; 8],
    pub global: [u8; 8],
    pub background: [u8; 64],
    pub service: Service,
}

// What events change of it, but the charges and the deadlines.
pub fn queues_of(g: Gate) -> Queues
    ensures { result ≡ queues_of g }
{
    let Gate {
        lines,
        rooms,
        global,
        background,
        server,
        units,
        ..
    } = g;
    Queues {
        lines,
        rooms,
        global,
        background,
        service: Service { server, units },
    }
}

// The gate of a setup, queues, charges and deadlines.
pub fn gate_of(setup: Setup, q: Queues, charges: [u32; 64], deadlines: [u32; 64]) -> Gate
    ensures { result ≡ gate_of setup q charges deadlines }
{
    let Queues {
        lines,
        rooms,
        global,
        background,
        service,
    } = q;
    Gate {
        setup,
        lines,
        rooms,
        global,
        background,
        server: service.server,
        units: service.units,
        charges,
        deadlines,
    }
}

// THE KEYS

// What each client's rank goes by, in one column: the deadlines, or else the priorities. Under priorities no event
// changes it.
pub fn keys_of(timed: bool, priorities: [u16; 64], deadlines: [u32; 64]) -> [u32; 64]
    ensures { result ≡ keys_in timed priorities deadlines }
{
    if timed {
        return deadlines;
    }
    // A loop and not `map`, which takes the array apart place by place: a trace makes a column for each entry.
    let mut keys = [0u32; 64];
    for c in 0..64 {
        keys[c] = u32::from(priorities[c]);
    }
    keys
}

// The deadlines that such a column holds: under priorities all are 0.
pub fn deadlines_of(timed: bool, keys: [u32; 64]) -> [u32; 64]
    ensures { result ≡ deadlines_in timed keys }
{
    if timed {
        return keys;
    }
    [0u32; 64]
}
