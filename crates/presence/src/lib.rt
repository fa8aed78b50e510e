// Who is where: in line or room, in the background queue, in service. The tests that answers go by.
#![tactic(auto)]

ghost use Rattle.std.specs.Prelude.{◌≡◌, ◌<◌};
ghost use Rattle.rules.specs.Limits.{max_clients};
ghost use Rattle.gate.specs.Shown.{server_of};
ghost use Rattle.presence.specs.Presence.{waits_in, present_in};

use gate::{Client, Line, Server};

// Whether c is in its line or its waiting room.
pub fn waits(line: Line, room: u64, c: Client) -> bool
    requires { c.0 < max_clients }
    ensures { result ≡ waits_in line.places room c.0 }
{
    rows::line_holds(line, rows::byte(c)) || sets::member(room, usize::from(c.0))
}

// Whether c waits already, spent included.
pub fn present(line: Line, room: u64, background: &[u8; 64], server: Server, c: Client) -> bool
    requires { c.0 < max_clients }
    ensures { result ≡ present_in line.places room background.now (server_of server) c.0 }
{
    waits(line, room, c)
        || places::stands(background, rows::byte(c))
        || serving::serves(server, usize::from(c.0))
}
