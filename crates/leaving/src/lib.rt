// Who leaves: what an accepted reply and abort do to the queues.
#![tactic(auto)]

ghost use Rattle.std.specs.Prelude.{◌≡◌, ◌<◌, length};
ghost use Rattle.rules.specs.Limits.{max_clusters, max_clients};
ghost use Rattle.rules.specs.Lists.{remove};
ghost use Rattle.rules.specs.State.{front, spent};
ghost use Rattle.rules.specs.Rank.{outranks};
ghost use Rattle.rules.specs.Queues.{queue};
ghost use Rattle.rules.specs.Events as rules;
ghost use Rattle.places.specs.Places.{take_out_of};
ghost use Rattle.gate.specs.declared.Server.TheVariants.{Tidying};
ghost use Rattle.parts.specs.Parts.{put_global, put_server};
ghost use Rattle.gate.specs.Shown.{server_of};
ghost use Rattle.parts.specs.Shows.{Homes, Refills, ServerFits, Leaves};
ghost use Rattle.leaving.specs.Finds.{Turn, Yields};

use gate::{Client, Server, Setup};
use parts::Queues;

// LEAVING

// c leaves its line, then refill.
fn gone(mut q: Queues, setup: &Setup, keys: &[u32; 64], c: Client) -> Queues
    requires { (c.0 < max_clients) × Homes setup.now.homes }
    ensures { Leaves (λ v s. (setup.now.homes ≡ v.homes)
        × Refills v s setup.now.sizes keys.now)
        (λ u s. rules.gone u (outranks u s) c.0 s) q result }
{
    let k = rows::home(setup, c);
    q.lines[k.0] = rows::shorter(q.lines[k.0], rows::byte(c));
    moves::refilled(q, setup, keys, k)
}

// REPLY

// The request in service has ended, and the server tidies: 0 units so far.
fn freed(q: Queues) -> Queues
    ensures { result ≡ put_server Tidying 0 q }
{
    moves::served(q, Server::Tidying, 0)
}

// The request of a front ends: it leaves its line, then refill, and the next front joins the global queue.
fn front_ended(q: Queues, setup: &Setup, keys: &[u32; 64], c: Client) -> Queues
    requires { (c.0 < max_clients) × Homes setup.now.homes }
    ensures { Leaves (λ v s. (setup.now.homes ≡ v.homes)
        × Refills v s setup.now.sizes keys.now
        × (length s.global < max_clusters)) (λ u s. rules.ended u (outranks u s) (front c.0) s) q result }
{
    let k = rows::home(setup, c);
    moves::queued(gone(freed(q), setup, keys, c), setup, k)
}

// The request of a spent client ends: its cluster stops being blocked, and the front there joins the global queue.
fn spent_ended(q: Queues, setup: &Setup, c: Client) -> Queues
    requires { (c.0 < max_clients) × Homes setup.now.homes }
    ensures { Leaves (λ v s. (setup.now.homes ≡ v.homes) × (length s.global < max_clusters))
        (λ u s. rules.ended u (outranks u s) (spent c.0) s) q result }
{
    let k = rows::home(setup, c);
    let free = freed(q);
    moves::queued(free, setup, k)
}

// Reply: the served request ends, and nobody is picked yet.
pub fn replied(q: Queues, setup: &Setup, keys: &[u32; 64]) -> Queues
    requires { ServerFits (server_of q.service.server) × Homes setup.now.homes }
    ensures { Leaves (λ v s. (setup.now.homes ≡ v.homes)
        × Refills v s setup.now.sizes keys.now
        × Yields s.server s.global) (λ u s. rules.replied u (outranks u s) s) q result }
{
    match q.service.server {
        Server::Front(c) => front_ended(q, setup, keys, c),
        Server::Spent(c) => spent_ended(q, setup, c),
        _ => freed(q),
    }
}

// ABORT

// c leaves the global queue, and the others keep their order.
fn unqueued(mut q: Queues, c: Client) -> Queues
    requires { c.0 < max_clients }
    ensures { result ≡ put_global (take_out_of c.0 q.global) q }
{
    places::take_out(&mut q.global, rows::byte(c));
    q
}

// A front that is not in service leaves line and global queue, and the new front joins the end of that queue.
fn front_aborted(q: Queues, setup: &Setup, keys: &[u32; 64], c: Client) -> Queues
    requires { (c.0 < max_clients) × Homes setup.now.homes }
    ensures { Leaves (λ v s. (setup.now.homes ≡ v.homes)
        × Refills v s setup.now.sizes keys.now
        × (length (remove c.0 s.global) < max_clusters))
        (λ u s. queue u (u.cluster c.0) (rules.gone u (outranks u s) c.0 (rules.unqueue c.0 s))) q result }
{
    let k = rows::home(setup, c);
    moves::queued(gone(unqueued(q, c), setup, keys, c), setup, k)
}

// Abort c. In the waiting room: leaves. Front in service: leaves the line, and stays in service as spent. Front and
// not in service: leaves line and global queue. In the line but not front: leaves.
pub fn aborted(mut q: Queues, setup: &Setup, keys: &[u32; 64], c: Client) -> Queues
    requires { (c.0 < max_clients) × Homes setup.now.homes }
    ensures { Leaves (λ v s. (setup.now.homes ≡ v.homes)
        × Refills v s setup.now.sizes keys.now
        × Turn v s c.0) (λ u s. rules.aborted u (outranks u s) c.0 s) q result }
{
    let k = rows::home(setup, c);
    let at = usize::from(c.0);
    if sets::member(q.rooms[k.0], at) {
        q.rooms[k.0] = sets::without(q.rooms[k.0], at);
        return q;
    }
    if serving::is_front(q.service.server, at) {
        let n = moves::served(q, Server::Spent(c), q.service.units);
        return gone(n, setup, keys, c);
    }
    if rows::front(q.lines[k.0]) == rows::byte(c) {
        return front_aborted(q, setup, keys, c);
    }
    gone(q, setup, keys, c)
}
