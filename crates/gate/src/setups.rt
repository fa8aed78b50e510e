// The check of a setup: whether it is accepted, and why not.

ghost use Rattle.std.specs.Prelude.{◌≡◌, eqb, not, position};
ghost use Rattle.std.specs.List.{zip};
ghost use Rattle.rules.specs.Refusals.{accepted};
ghost use Rattle.rules.specs.Setup.{fit_size, fit_row};
ghost use Rattle.gate.specs.Shown.{setup_of};
ghost use Rattle.gate.specs.Made.{verdict_of, told};

use crate::{Gate, Refusal, Setup};

fn size_fits(m: u8) -> bool
    ensures { result ≡ fit_size m }
{
    1 <= m && usize::from(m) <= Gate::MAX_SIZE
}

fn row_fits(kind: u8, home: u8, k: u8) -> bool
    ensures { result ≡ fit_row k kind home }
{
    kind <= 1 && home < k
}

// The first size that is not 1 to 8.
fn first_bad_size(sizes: &[u8]) -> Option<usize>
    ensures { result ≡ position (λ m. not (fit_size m)) sizes.now }
{
    sizes.iter().position(|m| !size_fits(*m))
}

// The first row whose kind is not 0 or 1, or whose cluster is not below k.
fn first_bad_row(kinds: &[u8], homes: &[u8], k: u8) -> Option<usize>
    ensures { result ≡ position (λ r. not (fit_row k r.0 r.1)) (zip kinds.now homes.now) }
{
    kinds
        .iter()
        .zip(homes)
        .position(|(kind, home)| !row_fits(*kind, *home, k))
}

// Whether a setup is accepted, checked in the order 1, 2, 3, 4, 5.
pub fn setup_verdict(s: Setup) -> Result<(), Refusal>
    ensures { told result ≡ verdict_of (setup_of s) }
{
    let k = usize::from(s.clusters);
    if k < 1 || k > Gate::MAX_CLUSTERS {
        return Err(Refusal::BadClusters);
    }
    if s.cap == 0 {
        return Err(Refusal::NoCap);
    }
    let n = usize::from(s.clients);
    if n > Gate::MAX_CLIENTS {
        return Err(Refusal::ManyClients);
    }
    if let Some(bad) = first_bad_size(&s.sizes[..k]) {
        return Err(Refusal::BadSize(bad));
    }
    if let Some(row) = first_bad_row(&s.kinds[..n], &s.homes[..n], s.clusters) {
        return Err(Refusal::BadRow(row));
    }
    Ok(())
}

// A verdict's number.
pub fn number(v: Result<(), Refusal>) -> u64
    ensures { result ≡ (told v).number }
{
    match v {
        Ok(()) => 0,
        Err(Refusal::BadClusters) => 1,
        Err(Refusal::NoCap) => 2,
        Err(Refusal::ManyClients) => 3,
        Err(Refusal::BadSize(_)) => 4,
        Err(Refusal::BadRow(_)) => 5,
    }
}

pub fn is_accepted(v: Result<(), Refusal>) -> bool
    ensures { result ≡ eqb (told v).number accepted }
{
    number(v) == 0
}
