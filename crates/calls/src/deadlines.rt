// Where a wait's deadline comes and goes: the keys, which are changed in place.

ghost use Rattle.std.specs.Prelude.{◌≡◌, ◌<◌};
ghost use Rattle.rules.specs.Limits.{max_clients};
ghost use Rattle.gate.specs.Shown.{server_of};
ghost use Rattle.parts.specs.Shows.{ServerFits};
ghost use Rattle.calls.specs.Due.{due_in, replied_in};

use gate::{Client, Server, Setup};

// The deadline of c, where clients go by deadlines; priorities stay.
pub fn due(keys: &mut [u32; 64], setup: &Setup, c: Client, deadline: u32)
    requires { c.0 < max_clients }
    ensures { keys.new ≡ due_in setup.now.timed c.0 deadline keys.old }
{
    if setup.timed {
        keys[usize::from(c.0)] = deadline;
    }
}

// Of those in service only a front waits: its reply ends its wait.
pub fn replied(keys: &mut [u32; 64], setup: &Setup, server: Server)
    requires { ServerFits (server_of server) }
    ensures { keys.new ≡ replied_in setup.now.timed (server_of server) keys.old }
{
    if let Server::Front(c) = server {
        due(keys, setup, c, 0);
    }
}
