// The fronts: who is in the global queue, and who is in service.
#![tactic(auto)]

ghost use Rattle.std.specs.Prelude.{◌≡◌};
ghost use Rattle.rules.specs.Limits.{max_clusters};
ghost use Rattle.gate.specs.Shown.{server_of};
ghost use Rattle.parts.specs.Shows.{Homes};
ghost use Rattle.fronts.specs.Answers.{firsts_of, queued_of, global_fits, server_fits};

use gate::{Line, Server};
use setup_check::Clients;

// THE GLOBAL QUEUE

// The front of each line. An unused place holds no client's number, which joins no set.
pub fn firsts(lines: [Line; 8]) -> u64
    ensures { result ≡ firsts_of lines max_clusters }
{
    let mut fronts = 0;
    for line in lines.iter() {
        fronts = sets::with(fronts, usize::from(rows::front(*line)));
    }
    fronts
}

// The fronts that are not in service and whose cluster isn't blocked.
pub fn queued(homes: &[u8; 64], own: [u64; 8], server: Server, fronts: u64) -> u64
    requires { Homes homes.now }
    ensures { result ≡ queued_of homes.now own (server_of server) fronts }
{
    match server {
        Server::Front(c) => sets::without(fronts, usize::from(c.0)),
        Server::Spent(c) => sets::less(fronts, own[rows::cluster_of(homes, usize::from(c.0)).0]),
        _ => fronts,
    }
}

// The queue holds each of these once, and nobody else.
pub fn global_sound(q: &[u8], fronts: u64) -> bool
    ensures { result ≡ global_fits fronts q.now }
{
    let Some(queue) = seen::queue_seen(q, fronts, 0) else {
        return false;
    };
    queue == fronts
}

// THE SERVER

// Idle: nobody waits, and 0 units served. Tidying: nobody is in service, and anybody may wait. A front is one of the
// fronts. A best-effort client is in no queue. A spent client is real-time, and neither in a line nor in its waiting
// room.
pub fn server_sound(
    clients: Clients,
    homes: &[u8; 64],
    rooms: [u64; 8],
    fronts: u64,
    stand: u64,
    server: Server,
    units: u32,
) -> bool
    requires { Homes homes.now }
    ensures { result ≡ server_fits clients homes.now rooms fronts stand units (server_of server) }
{
    match server {
        Server::Idle => units == 0 && stand == 0,
        Server::Tidying => true,
        Server::Front(c) => sets::member(fronts, usize::from(c.0)),
        Server::Best(c) => sets::member(sets::less(clients.effort, stand), usize::from(c.0)),
        Server::Spent(c) => {
            let own = rows::cluster_of(homes, usize::from(c.0)).0;
            let queued = sets::less(sets::less(clients.own[own], stand), rooms[own]);
            sets::member(queued, usize::from(c.0))
        }
    }
}
