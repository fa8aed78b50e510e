// Rank, from one reading of a client's key: the highest in rank of a set, and the best m of it. A set is walked by its
// members.
#![tactic(auto)]

ghost use Rattle.std.specs.Prelude.{◌≡◌, Bool, true, false, cond, ℕ, ◌≤◌, ◌<◌, get_or};
ghost use Rattle.std.proofs.Math.Option.{some};
ghost use Rattle.rules.specs.Limits.{max_clients};
ghost use Rattle.rules.specs.Lists.{highest, upd};
ghost use Rattle.rules.specs.Rank.{Rank};
ghost use Rattle.rules.proofs.Highest.{StrictTotal};
ghost use Rattle.sets.specs.Sets.{member, set_of, count_of};
ghost use Rattle.ranks.specs.Ranks.{rank_by, turned, best_in, past_of};
ghost use Rattle.ranks.specs.Keeps.{Keeps};

// WHO OUTRANKS WHOM

// What a client's rank goes by: the smaller, the higher.
fn key(keys: &[u32; 64], c: usize) -> u32
    requires { c < max_clients }
    ensures { result ≡ get_or keys.now c 0 }
{
    keys[c]
}

// Whether client a outranks client b: by their keys, then by their numbers. (By returns: of one expression the compiler
// makes conditional moves, and each comparison of a search waits for the one before it, docs/DESIGN-PASS.md.)
fn outranks(keys: &[u32; 64], a: usize, b: usize) -> bool
    requires { (a < max_clients) × (b < max_clients) }
    ensures { result ≡ rank_by keys.now a b }
{
    let p = key(keys, a);
    let q = key(keys, b);
    if p < q {
        return true;
    }
    if p == q {
        return a < b;
    }
    false
}

// THE HIGHEST AND THE LOWEST

// Of a set that has a member the one that comes before all others there, by an order that `before` tells.
fn first_by<F: Fn(usize, usize) -> bool>(s: u64, before: F) -> usize
    requires some { 0 < s }
    requires callable { (a b : ℕ) → a < max_clients → b < max_clients → F.pre before a b }
    ensures first { (rank : Rank) → StrictTotal rank
        → ((a b : ℕ) (r : Bool) → a < max_clients → b < max_clients → F.post before a b r → r ≡ rank a b)
        → some result ≡ highest rank (member s) max_clients }
    ensures low { result < max_clients }
{
    let mut b = sets::first(s);
    let mut left = sets::rest(s);
    while left != 0 {
        let c = sets::first(left);
        if before(c, b) {
            b = c;
        }
        left = sets::rest(left);
    }
    b
}

// The highest in rank of a set that has a member.
pub fn highest_in(keys: &[u32; 64], s: u64) -> usize
    requires { 0 < s }
    ensures { (some result ≡ highest (rank_by keys.now) (member s) max_clients) × (result < max_clients) }
{
    first_by(s, |a, b| outranks(keys, a, b))
}

// The lowest.
fn lowest_in(keys: &[u32; 64], s: u64) -> usize
    requires { 0 < s }
    ensures { (some result ≡ highest (turned (rank_by keys.now)) (member s) max_clients) × (result < max_clients) }
{
    first_by(s, |a, b| outranks(keys, b, a))
}

// THE BEST

// The best of those seen so far, and the lowest in rank of them.
#[derive(Clone, Copy)]
struct Kept {
    best: u64,
    last: usize,
}

// The set without its m lowest by number.
fn past(s: u64, m: usize) -> u64
    requires { m ≤ count_of s }
    ensures { result ≡ past_of s m }
{
    let mut left = s;
    for i in 0..m {
        left = sets::rest(left);
    }
    left
}

// With c seen too: if it outranks the lowest, it takes its place.
fn seen(keys: &[u32; 64], k: Kept, c: usize) -> Kept
    requires { (c < max_clients) × (k.last < max_clients) }
    ensures { ((m : ℕ) (p : ℕ → Bool) → Keeps (rank_by keys.now) m p k → p c ≡ false
        → Keeps (rank_by keys.now) m (upd p c true) result) × (result.last < max_clients) }
{
    let l = k.last;
    if !outranks(keys, c, l) {
        return k;
    }
    let t = sets::with(sets::without(k.best, l), c);
    Kept {
        best: t,
        last: lowest_in(keys, t),
    }
}

// Those in a set whom fewer than m of it outrank. Where it has no more than m, no two are compared.
pub fn best_in(keys: &[u32; 64], s: u64, m: usize) -> u64
    ensures { result ≡ set_of max_clients (best_in keys.now s m) }
{
    if sets::count(s) <= m {
        return s;
    }
    if m == 0 {
        return 0;
    }
    let mut left = past(s, m);
    let t = sets::less(s, left);
    let mut k = Kept {
        best: t,
        last: lowest_in(keys, t),
    };
    while left != 0 {
        k = seen(keys, k, sets::first(left));
        left = sets::rest(left);
    }
    k.best
}
