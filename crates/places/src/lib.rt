// Queues in fixed places, first come, first served: used places come first, and unused places hold 255.
// A slice of any length serves, and any contents: what each function answers is said of the places as they stand.
#![tactic(auto)]

ghost use Rattle.std.specs.Prelude.{◌≡◌, drop};
ghost use Rattle.rules.specs.Lists.{has};
ghost use Rattle.places.specs.Places.{unpad, holds_only, place_of, place_for, used_of};
ghost use Rattle.places.specs.Places.{append_of, join_of, close_up_of, take_out_of};

// What an unused place holds.
pub const UNUSED: u8 = 255;

// The first place that holds x, or the number of places if none does. Of 255: the first unused place.
#[tactic(auto, using(crate::proofs::Turns::place_here, crate::proofs::Turns::place_next, crate::proofs::Turns::place_end))]
pub fn find(q: &[u8], x: u8) -> usize
    ensures { result ≡ place_of x q.now }
{
    for (i, y) in q.iter().enumerate() {
        if *y == x {
            return i;
        }
    }
    q.len()
}

// The first place that holds x or is unused, or the number of places if there is none: where x stands, or would join.
#[tactic(auto, using(crate::proofs::Turns::for_here, crate::proofs::Turns::for_unused, crate::proofs::Turns::for_next, crate::proofs::Turns::for_end))]
pub fn place_for(q: &[u8], x: u8) -> usize
    ensures { result ≡ place_for x q.now }
{
    for (i, y) in q.iter().enumerate() {
        if *y == x || *y == UNUSED {
            return i;
        }
    }
    q.len()
}

// Whether x is in the queue: at a place before the first unused one.
pub fn stands(q: &[u8], x: u8) -> bool
    ensures { result ≡ has x (unpad q.now) }
{
    let at = place_for(q, x);
    at < q.len() && q[at] != UNUSED
}

// How many places are used: those before the first unused one.
pub fn used(q: &[u8]) -> usize
    ensures { result ≡ used_of q.now }
{
    find(q, UNUSED)
}

// x joins the end of the queue, if there is an unused place.
pub fn append(q: &mut [u8], x: u8)
    ensures { q.new ≡ append_of x q.old }
{
    let at = used(q);
    if at < q.len() {
        q[at] = x;
    }
}

// x joins the end of the queue, if it is not there and there is an unused place.
pub fn join(q: &mut [u8], x: u8)
    ensures { q.new ≡ join_of x q.old }
{
    let at = place_for(q, x);
    if at < q.len() {
        q[at] = x;
    }
}

// What stands at a place leaves it, the places behind it close up, and the last becomes unused.
pub fn close_up(q: &mut [u8], at: usize)
    ensures { q.new ≡ close_up_of at q.old }
{
    if q.len() <= at {
        return;
    }
    let last = q.len() - 1;
    q.copy_within(at + 1.., at);
    q[last] = UNUSED;
}

// x leaves the queue, if it is there, and the others keep their order.
pub fn take_out(q: &mut [u8], x: u8)
    ensures { q.new ≡ take_out_of x q.old }
{
    let at = find(q, x);
    close_up(q, at);
}

// Nothing but x from a place on.
#[tactic(auto, using(crate::proofs::Turns::same_turn, crate::proofs::Turns::same_stop, crate::proofs::Turns::same_end))]
pub fn holds_only_from(q: &[u8], from: usize, x: u8) -> bool
    ensures { result ≡ holds_only x (drop from q.now) }
{
    for i in from..q.len() {
        if q[i] != x {
            return false;
        }
    }
    true
}
