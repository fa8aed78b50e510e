// Sets of clients as words: bit c of a u64 says whether client c is in the set.
// A number of 64 or more is no client's: it is in no set, and joins and leaves none.
#![tactic(auto)]

ghost use Rattle.std.specs.Prelude.{true, ◌≡◌, ◌<◌};
ghost use Rattle.rules.specs.Limits.{max_clients};
ghost use Rattle.sets.specs.Sets.{member, with_of, without_of, union_of, common_of, less_of, count_of, first_of};

// The bits of a word.
const WIDTH: usize = 64;

// Is c in the set?
pub fn member(s: u64, c: usize) -> bool
    ensures { result ≡ member s c }
{
    if c < WIDTH { (s >> c) % 2 == 1 } else { false }
}

// The set with c.
pub fn with(s: u64, c: usize) -> u64
    ensures { result ≡ with_of s c }
{
    if c < WIDTH { s | (1u64 << c) } else { s }
}

// The set without c: its bit is set, and then turned.
pub fn without(s: u64, c: usize) -> u64
    ensures { result ≡ without_of s c }
{
    if c < WIDTH {
        let one = 1u64 << c;
        (s | one) ^ one
    } else {
        s
    }
}

// The members of the one or the other.
pub fn union(s: u64, t: u64) -> u64
    ensures { result ≡ union_of s t }
{
    s | t
}

// The members of both.
pub fn common(s: u64, t: u64) -> u64
    ensures { result ≡ common_of s t }
{
    s & t
}

// The members of s that t hasn't: both, and then those of t turned.
pub fn less(s: u64, t: u64) -> u64
    ensures { result ≡ less_of s t }
{
    (t | s) ^ t
}

// How many are in the set.
pub fn count(s: u64) -> usize
    ensures { result ≡ count_of s }
{
    u64::count_ones(s) as usize
}

// MEMBER BY MEMBER

// The lowest member of a set that has one.
pub fn first(s: u64) -> usize
    requires { 0 < s }
    ensures { (result ≡ first_of s) × (result < max_clients) × (member s result ≡ true) }
{
    u64::trailing_zeros(s) as usize
}

// The set without it: the word below has that bit turned, and all bits under it.
pub fn rest(s: u64) -> u64
    requires { 0 < s }
    ensures { (result ≡ without_of s (first_of s)) × (result < s) }
{
    s & (s - 1)
}
