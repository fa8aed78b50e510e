// Who enters: what an accepted invoke does to the queues.
#![tactic(auto)]

ghost use Rattle.std.specs.Prelude.{◌≡◌, ◌<◌};
ghost use Rattle.rules.specs.Limits.{max_clients};
ghost use Rattle.rules.specs.Events as rules;
ghost use Rattle.parts.specs.Shows.{Homes, Leaves};
ghost use Rattle.entering.specs.Finds.{enters, Ready};

use gate::{Client, Setup};
use parts::Queues;

// Real-time: it joins the end of its line if there is room, else the waiting room. If it became front, it joins the
// global queue, unless its cluster is blocked.
fn arrived(mut q: Queues, setup: &Setup, c: Client) -> Queues
    requires { (c.0 < max_clients) × Homes setup.now.homes }
    ensures { Leaves (λ v s. (setup.now.homes ≡ v.homes) × (setup.now.sizes ≡ v.sizes) × Ready v s c.0)
        (λ u s. rules.arrive u c.0 (s.lines (u.cluster c.0)) s) q result }
{
    let k = rows::home(setup, c);
    let line = q.lines[k.0];
    let used = rows::used(line);
    if used < rows::size(setup, k) {
        q.lines[k.0] = rows::longer(line, rows::byte(c));
        if used == 0 {
            return moves::queued(q, setup, k);
        }
        return q;
    }
    q.rooms[k.0] = sets::with(q.rooms[k.0], usize::from(c.0));
    q
}

// Best-effort: joins the background queue.
fn behind(mut q: Queues, c: Client) -> Queues
    requires { c.0 < max_clients }
    ensures { Leaves (λ v s. Ready v s c.0) (λ u s. rules.behind c.0 s) q result }
{
    places::join(&mut q.background, rows::byte(c));
    q
}

// The one or the other by its kind.
fn entered(q: Queues, setup: &Setup, c: Client) -> Queues
    requires { (c.0 < max_clients) × Homes setup.now.homes }
    ensures { Leaves (λ v s. (setup.now.kinds ≡ v.kinds) × (setup.now.homes ≡ v.homes)
        × (setup.now.sizes ≡ v.sizes) × Ready v s c.0) (λ u s. enters u c.0 s) q result }
{
    if rows::is_real_time(setup, c) {
        return arrived(q, setup, c);
    }
    behind(q, c)
}

// Invoke c. Last, if the server is idle, pick.
pub fn invoked(q: Queues, setup: &Setup, c: Client) -> Queues
    requires { (c.0 < max_clients) × Homes setup.now.homes }
    ensures { Leaves (λ v s. (setup.now.kinds ≡ v.kinds) × (setup.now.homes ≡ v.homes)
        × (setup.now.sizes ≡ v.sizes) × Ready v s c.0) (λ u s. rules.invoked u c.0 s) q result }
{
    let server = q.service.server;
    let n = entered(q, setup, c);
    if serving::is_idle(server) {
        return moves::picked(n);
    }
    n
}
