// Who is charged when units are served, as a set of clients that is made once, and the charges, which change in place.
#![tactic(auto)]

ghost use Rattle.std.specs.Prelude.{◌≡◌, false, ◌+◌, ◌≤◌, ◌<◌, ltb, set};
ghost use Rattle.rules.specs.Limits.{max_clusters, max_clients, max_charge};
ghost use Rattle.rules.specs.Lists.{some_below};
ghost use Rattle.rules.specs.State.{State};
ghost use Rattle.rules.specs.Rank.{outranks};
ghost use Rattle.rules.specs.Events.{charged};
ghost use Rattle.rules.specs.Sound.{Sound};
ghost use Rattle.sets.specs.Sets.{set_of};
ghost use Rattle.gate.specs.declared.Setup as given;
ghost use Rattle.gate.specs.Shown.{setup_of, show_rooms};
ghost use Rattle.parts.specs.Shows.{ShowsKeys, ShowsLines};
ghost use Rattle.charging.specs.Charged.{waiting_in, overcharges_in, grown};

use gate::{Client, Cluster, Gate, Line, Setup};
use parts::Queues;

// WHO WAITS

// Who is in a line or in a room. The line ends at its first unused place.
fn waiting_in(l: Line, room: u64) -> u64
    ensures { result ≡ waiting_in l.places room }
{
    let mut s = room;
    for x in l.places.iter() {
        if *x == places::UNUSED {
            return s;
        }
        s = sets::with(s, usize::from(*x));
    }
    s
}

// WHO IS CHARGED

// The charged clients.
pub fn charged(q: &Queues, setup: &Setup, keys: &[u32; 64]) -> u64
    requires { setup.now.clusters ≤ max_clusters }
    ensures { (v : given.Setup) (s : State) → setup.now.sizes ≡ v.sizes → ShowsKeys v s keys.now
        → setup.now.clusters ≡ v.clusters → ShowsLines s.lines q.now.lines
        → q.now.rooms ≡ show_rooms (setup_of v).cluster s.room → Sound (setup_of v) s
        → result ≡ set_of max_clients (charged (setup_of v) (outranks (setup_of v) s) s) }
{
    let mut s = 0;
    for k in 0..usize::from(setup.clusters) {
        let waiting = waiting_in(q.lines[k], q.rooms[k]);
        let best = ranks::best_in(keys, waiting, rows::size(setup, Cluster(k)));
        s = sets::union(s, best);
    }
    s
}

// CHARGES

// Whether n units more would carry a charge past the limit.
fn overcharged(charge: u32, n: u16) -> bool
    ensures { result ≡ ltb max_charge (charge + n) }
{
    Gate::MAX_CHARGE - u32::from(n) < charge
}

// Whether n units more would carry the charge of one of the clients in the set past the limit.
pub fn overcharges(charges: &[u32; 64], set: u64, n: u16) -> bool
    ensures { result ≡ some_below (overcharges_in charges.now set n) max_clients }
{
    let mut left = set;
    while left != 0 {
        if overcharged(charges[sets::first(left)], n) {
            return true;
        }
        left = sets::rest(left);
    }
    false
}

// The charge of each client in the set grows by n.
pub fn charge(charges: &mut [u32; 64], set: u64, n: u16)
    requires { some_below (overcharges_in charges.old set n) max_clients ≡ false }
    ensures { charges.new ≡ grown charges.old set n }
{
    let mut left = set;
    while left != 0 {
        let c = sets::first(left);
        charges[c] += u32::from(n);
        left = sets::rest(left);
    }
}

// The charge of c becomes 0.
pub fn reset(charges: &mut [u32; 64], c: Client)
    requires { c.0 < max_clients }
    ensures { charges.new ≡ set charges.old c.0 0 }
{
    charges[usize::from(c.0)] = 0;
}
