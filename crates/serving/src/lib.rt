// Who is in service, and as what: every reading of the server.
#![tactic(auto)]

ghost use Rattle.std.specs.Prelude.{◌≡◌, length};
ghost use Rattle.rules.specs.Limits.{max_clients};
ghost use Rattle.rules.specs.State.{is_idle, is_tidying, is_serving, cap_of, serves, is_front, is_spent, blocks};
ghost use Rattle.rules.specs.Replay.{in_service};
ghost use Rattle.gate.specs.declared.Setup as given;
ghost use Rattle.gate.specs.Shown.{setup_of, server_of};
ghost use Rattle.serving.specs.Service.{number_in};

use gate::{Client, Cluster, Server, Setup};

pub fn is_idle(s: Server) -> bool
    ensures { result ≡ is_idle (server_of s) }
{
    matches!(s, Server::Idle)
}

pub fn is_tidying(s: Server) -> bool
    ensures { result ≡ is_tidying (server_of s) }
{
    matches!(s, Server::Tidying)
}

// Whether some client is in service.
pub fn is_serving(s: Server) -> bool
    ensures { result ≡ is_serving (server_of s) }
{
    served(s).is_some()
}

// The cap of its units: W while it tidies, else L.
pub fn cap_of(setup: &Setup, s: Server) -> u16
    ensures { result ≡ cap_of (setup_of setup.now) (server_of s) }
{
    match s {
        Server::Tidying => setup.tidy,
        _ => setup.cap,
    }
}

// Who is in service, a spent client too.
pub fn served(s: Server) -> Option<Client>
    ensures { number_in result ≡ in_service (server_of s) }
{
    match s {
        Server::Front(c) | Server::Best(c) | Server::Spent(c) => Some(c),
        Server::Idle | Server::Tidying => None,
    }
}

// Whether c is in service.
pub fn serves(s: Server, c: usize) -> bool
    ensures { result ≡ serves (server_of s) c }
{
    match served(s) {
        Some(d) => usize::from(d.0) == c,
        None => false,
    }
}

// Whether c is in service as the front of its line.
pub fn is_front(s: Server, c: usize) -> bool
    ensures { result ≡ is_front (server_of s) c }
{
    matches!(s, Server::Front(d) if usize::from(d.0) == c)
}

// Whether c is in service as a spent client.
pub fn is_spent(s: Server, c: usize) -> bool
    ensures { result ≡ is_spent (server_of s) c }
{
    matches!(s, Server::Spent(d) if usize::from(d.0) == c)
}

// A cluster is blocked exactly while a spent client of that cluster is in service.
pub fn is_blocked(setup: &Setup, s: Server, k: Cluster) -> bool
    requires { length setup.now.homes ≡ max_clients }
    ensures { (v : given.Setup) → setup.now.homes ≡ v.homes → result ≡ blocks (setup_of v) (server_of s) k.0 }
{
    match s {
        Server::Spent(c) => rows::cluster_of(&setup.homes, usize::from(c.0)).0 == k.0,
        _ => false,
    }
}
