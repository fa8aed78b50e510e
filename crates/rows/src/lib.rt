// What is read of a gate's parts: a client's row, a cluster's size, a line.
#![tactic(auto)]

ghost use Rattle.std.specs.Prelude.{◌≡◌, ◌<◌, length, get_or};
ghost use Rattle.rules.specs.Limits.{max_clusters, max_clients};
ghost use Rattle.rules.specs.Lists.{has};
ghost use Rattle.rules.specs.Setup.{real_time};
ghost use Rattle.places.specs.Places.{used_of, append_of, take_out_of};
ghost use Rattle.gate.specs.Shown.{setup_of};
ghost use Rattle.parts.specs.Shows.{Homes};
ghost use Rattle.rows.specs.Homes.{Home};

use gate::{Client, Cluster, Gate, Line, Setup};

// A client's number as a place holds it. A place is a byte: whoever asks shows that the number fits.
pub fn byte(c: Client) -> u8
    requires { c.0 < max_clients }
    ensures { result ≡ c.0 }
{
    c.0 as u8
}

// THE TABLE

// The cluster that stands in row c; 0 where there is no such row.
pub fn cluster_of(homes: &[u8; 64], c: usize) -> Cluster
    requires { length homes.now ≡ max_clients }
    ensures { result.0 ≡ get_or homes.now c 0 }
{
    if c >= Gate::MAX_CLIENTS {
        return Cluster(0);
    }
    Cluster(usize::from(homes[c]))
}

// A client's cluster.
pub fn home(setup: &Setup, c: Client) -> Cluster
    requires { (c.0 < max_clients) × Homes setup.now.homes }
    ensures { Home setup.now.homes c.0 result.0 }
{
    cluster_of(&setup.homes, usize::from(c.0))
}

pub fn is_real_time(setup: &Setup, c: Client) -> bool
    requires { c.0 < max_clients }
    ensures { result ≡ real_time (setup_of setup.now) c.0 }
{
    setup.kinds[usize::from(c.0)] == 0
}

// A cluster's size, m.
pub fn size(setup: &Setup, k: Cluster) -> usize
    requires { k.0 < max_clusters }
    ensures { result ≡ (setup_of setup.now).size k.0 }
{
    usize::from(setup.sizes[k.0])
}

// LINES

// How many clients are in the line.
pub fn used(l: Line) -> usize
    ensures { result ≡ used_of l.places }
{
    places::used(&l.places)
}

// The line's front, or 255.
pub fn front(l: Line) -> u8
    ensures { result ≡ get_or l.places 0 0 }
{
    l.places[0]
}

// Whether one of the line's places holds x.
pub fn line_holds(l: Line, x: u8) -> bool
    ensures { result ≡ has x l.places }
{
    places::find(&l.places, x) < l.places.len()
}

// The line with x at its end.
pub fn longer(mut l: Line, x: u8) -> Line
    ensures { result ≡ record { places = append_of x l.places } }
{
    places::append(&mut l.places, x);
    l
}

// The line without x.
pub fn shorter(mut l: Line, x: u8) -> Line
    ensures { result ≡ record { places = take_out_of x l.places } }
{
    places::take_out(&mut l.places, x);
    l
}
