// The moves that events are made of, on the queues by value: refill, pick, and a front that joins the global queue.
// Each promises to leave the shown form of what the rules say, of whatever state the queues show.
#![tactic(auto)]

ghost use Rattle.std.specs.Prelude.{◌≡◌, ◌<◌, length};
ghost use Rattle.rules.specs.Limits.{max_clusters, max_clients};
ghost use Rattle.rules.specs.Rank.{outranks};
ghost use Rattle.rules.specs.Queues as rules;
ghost use Rattle.parts.specs.Parts.{put_server};
ghost use Rattle.parts.specs.Shows.{Refills, Leaves};

use gate::{Client, Cluster, Server, Setup};
use parts::{Queues, Service};

// REFILL

// Refill of a cluster: if its line has room and its waiting room isn't empty, the highest in rank moves to the line's
// end.
pub fn refilled(mut q: Queues, setup: &Setup, keys: &[u32; 64], k: Cluster) -> Queues
    requires { k.0 < max_clusters }
    ensures { Leaves (λ v s. Refills v s setup.now.sizes keys.now)
        (λ u s. rules.refill u (outranks u s) k.0 s) q result }
{
    let line = q.lines[k.0];
    let room = q.rooms[k.0];
    if room == 0 {
        return q;
    }
    if rows::size(setup, k) <= rows::used(line) {
        return q;
    }
    let c = ranks::highest_in(keys, room);
    q.lines[k.0] = rows::longer(line, c as u8);
    q.rooms[k.0] = sets::without(room, c);
    q
}

// PICK

// Another one in service, with the units served.
pub fn served(q: Queues, server: Server, units: u32) -> Queues
    ensures { result ≡ put_server server units q }
{
    Queues {
        service: Service { server, units },
        ..q
    }
}

// Pick: the first of the global queue enters service (it stays front of its line); if that queue is empty, the first
// of the background queue; if both are empty, the server is idle. Units served become 0.
pub fn picked(mut q: Queues) -> Queues
    ensures { Leaves (λ v s. Unit) (λ u s. rules.pick s) q result }
{
    let x = q.global[0];
    if x != places::UNUSED {
        places::close_up(&mut q.global, 0);
        return served(q, Server::Front(Client(u16::from(x))), 0);
    }
    let y = q.background[0];
    if y != places::UNUSED {
        places::close_up(&mut q.background, 0);
        return served(q, Server::Best(Client(u16::from(y))), 0);
    }
    served(q, Server::Idle, 0)
}

// THE GLOBAL QUEUE

// The front of a cluster joins the end of the global queue, unless the cluster is blocked.
pub fn queued(mut q: Queues, setup: &Setup, k: Cluster) -> Queues
    requires { (k.0 < max_clusters) × (length setup.now.homes ≡ max_clients) }
    ensures { Leaves (λ v s. (setup.now.homes ≡ v.homes) × (length s.global < max_clusters))
        (λ u s. rules.queue u k.0 s) q result }
{
    if serving::is_blocked(setup, q.service.server, k) {
        return q;
    }
    let x = rows::front(q.lines[k.0]);
    if x == places::UNUSED {
        return q;
    }
    places::append(&mut q.global, x);
    q
}
