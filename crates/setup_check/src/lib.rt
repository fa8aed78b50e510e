// A setup: whether it is sound, and its clients as sets.
#![tactic(auto)]

ghost use Rattle.std.specs.Prelude.{◌≡◌, ◌==◌, ◌+◌, ◌≤◌, ◌<◌, get_or, drop};
ghost use Rattle.std.specs.List.{list_all};
ghost use Rattle.rules.specs.Limits.{max_clusters, max_clients};
ghost use Rattle.parts.specs.Shows.{Homes};
ghost use Rattle.soundness.specs.Clauses.{setup_sound};
ghost use Rattle.setup_check.specs.Answers.{trimmed, sets_of};

use gate::Setup;

// A setup's clients as sets: the real-time clients of each cluster, all of them, and the best-effort clients.
#[derive(Clone, Copy)]
pub struct Clients {
    pub own: [u64; 8],
    pub real: u64,
    pub effort: u64,
}

// THE SETUP

// Nothing but 0 from a place on.
fn zero_priorities_from(q: &[u16], from: usize) -> bool
    ensures { result ≡ list_all (λ p. p == 0) (drop from q.now) }
{
    q.iter().skip(from).all(|p| *p == 0)
}

// Client rows past N, and sizes past K, are zero.
#[tactic(auto, using(crate::proofs::Sets::all_zero))]
fn is_trimmed(s: &Setup) -> bool
    ensures { result ≡ trimmed s.now.sizes s.now.kinds s.now.homes s.now.priorities s.now.clusters s.now.clients }
{
    let k = usize::from(s.clusters);
    let n = usize::from(s.clients);
    places::holds_only_from(&s.sizes, k, 0)
        && places::holds_only_from(&s.kinds, n, 0)
        && places::holds_only_from(&s.homes, n, 0)
        && zero_priorities_from(&s.priorities, n)
}

pub fn setup_sound(s: Setup) -> bool
    ensures { result ≡ setup_sound s }
{
    let verdict = gate::setup_verdict(s);
    if !gate::is_accepted(verdict) {
        return false;
    }
    is_trimmed(&s)
}

// ITS CLIENTS

// The clients below c, with c.
fn with_client(kinds: &[u8; 64], homes: &[u8; 64], all: Clients, c: usize) -> Clients
    requires { (c < max_clients) × (get_or homes.now c 0 < max_clusters) × (all ≡ sets_of kinds.now homes.now c) }
    ensures { result ≡ sets_of kinds.now homes.now (c + 1) }
{
    let mut next = all;
    if kinds[c] != 0 {
        next.effort = sets::with(next.effort, c);
        return next;
    }
    let k = usize::from(homes[c]);
    next.own[k] = sets::with(next.own[k], c);
    next.real = sets::with(next.real, c);
    next
}

// The clients below n: one pass over their rows.
pub fn clients_below<'a>(kinds: &'a [u8; 64], homes: &'a [u8; 64], n: usize) -> Clients
    requires { (n ≤ max_clients) × Homes homes.now }
    ensures { result ≡ sets_of kinds.now homes.now n }
{
    let mut all = Clients {
        own: [0; 8],
        real: 0,
        effort: 0,
    };
    for c in 0..n {
        all = with_client(kinds, homes, all, c);
    }
    all
}
