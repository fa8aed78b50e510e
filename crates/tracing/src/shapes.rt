// The lines of a trace by their numbers: whether they fit, and the setup or entry that they say.

ghost use Rattle.std.specs.Prelude.{◌≡◌, ℕ, ◌≤◌, ◌<◌, get_or};
ghost use Rattle.rules.specs.Limits.{max_clusters};
ghost use Rattle.gate.specs.Shown.{table};
ghost use Rattle.checking.specs.Checking.{served_in};
ghost use Rattle.text.specs.Text.{bits8, bits16, bits32};
ghost use Rattle.lines.specs.Lines.{dash, fit_in};
ghost use Rattle.items.specs.Items.{sizes_form, row_form};
ghost use Rattle.tracing.specs.Shapes.{ranks_of, head_setup, HeadNumbers, with_sizes, with_row, RowNumbers};
ghost use Rattle.tracing.specs.Shapes.{entry_widths, answer_at, entry_begins, deadline_in, served_of};

use gate::{Client, Gate, Setup};
use items::{row_form, sizes_all};
use layout::{DEADLINES, carries_ranks};
use lines::{NOBODY, fit};
use text::{BITS_8, BITS_16, BITS_32};

// The number at a place, 0 where there is none.
pub fn value_at(vs: &[u64], i: usize) -> u64
    ensures { result ≡ get_or vs.now i 0 }
{
    vs.get(i).copied().unwrap_or(0)
}

pub fn byte(x: u64) -> u8
    requires { x ≤ bits8 }
    ensures { result ≡ x }
{
    x as u8
}

pub fn word(x: u64) -> u16
    requires { x ≤ bits16 }
    ensures { result ≡ x }
{
    x as u16
}

fn double(x: u64) -> u32
    requires { x ≤ bits32 }
    ensures { result ≡ x }
{
    x as u32
}

// LINE S

// R: 0 where the line has none.
pub fn ranks_in(vs: &[u64]) -> u8
    requires { ranks_of vs.now ≤ bits8 }
    ensures { result ≡ ranks_of vs.now }
{
    byte(value_at(vs, 5))
}

// The setup before its tables.
pub fn head_setup(vs: &[u64]) -> Setup
    requires { HeadNumbers vs.now }
    ensures { result ≡ head_setup vs.now }
{
    Setup {
        clusters: byte(value_at(vs, 1)),
        clients: byte(value_at(vs, 2)),
        cap: word(value_at(vs, 3)),
        tidy: word(value_at(vs, 4)),
        timed: ranks_in(vs) == DEADLINES,
        sizes: [0u8; 8],
        kinds: [0u8; 64],
        homes: [0u8; 64],
        priorities: [0u16; 64],
    }
}

// LINE Z

pub fn sizes_fit(k: u8, vs: &[u64]) -> bool
    ensures { result ≡ fit_in (sizes_form k) vs.now }
{
    let all = sizes_all();
    let n = usize::from(k);
    fit(&all[..n], vs)
}

fn sizes_in(vs: &[u64]) -> [u8; 8]
    requires { (k : ℕ) → get_or vs.now k 0 ≤ bits8 }
    ensures { result ≡ table max_clusters (λ (k : ℕ). get_or vs.now k 0) }
{
    let mut sizes = [0; 8];
    for (k, size) in sizes.iter_mut().enumerate() {
        *size = byte(value_at(vs, k));
    }
    sizes
}

pub fn with_sizes(s: Setup, vs: &[u64]) -> Setup
    requires { (k : ℕ) → get_or vs.now k 0 ≤ bits8 }
    ensures { result ≡ with_sizes vs.now s }
{
    let sizes = sizes_in(vs);
    let kinds = s.kinds;
    let homes = s.homes;
    let priorities = s.priorities;
    Setup {
        clusters: s.clusters,
        clients: s.clients,
        cap: s.cap,
        tidy: s.tidy,
        timed: s.timed,
        sizes: sizes,
        kinds: kinds,
        homes: homes,
        priorities: priorities,
    }
}

// LINES C

pub fn row_fits(vs: &[u64]) -> bool
    ensures { result ≡ fit_in row_form vs.now }
{
    let form = row_form();
    fit(&form, vs)
}

// The setup with the row of client c, if there is a place for it.
pub fn with_row(s: Setup, c: u64, vs: &[u64]) -> Setup
    requires { RowNumbers vs.now }
    ensures { result ≡ with_row c vs.now s }
{
    let at = c as usize;
    if at < Gate::MAX_CLIENTS {
        let mut next = s;
        next.kinds[at] = byte(value_at(vs, 0));
        next.homes[at] = byte(value_at(vs, 1));
        next.priorities[at] = word(value_at(vs, 2));
        return next;
    }
    s
}

// LINES E

// Where ANSWER stands; SERVED and the charges are behind it.
pub fn answer_at(version: u16) -> usize
    ensures { (result ≡ answer_at version) × (result ≤ 3) }
{
    if carries_ranks(version) {
        return 3;
    }
    2
}

// Whether the numbers up to ANSWER fit.
fn answer_fits(version: u16, vs: &[u64]) -> bool
    ensures { result ≡ fit_in (entry_widths version) vs.now }
{
    if carries_ranks(version) {
        let widths = [BITS_8, BITS_16, BITS_32, BITS_16];
        return fit(&widths, vs);
    }
    let widths = [BITS_8, BITS_16, BITS_16];
    fit(&widths, vs)
}

pub fn entry_begins(version: u16, vs: &[u64]) -> bool
    ensures { result ≡ entry_begins version vs.now }
{
    let served = answer_at(version) + 1;
    if vs.len() <= served {
        return false;
    }
    if !answer_fits(version, &vs[..served]) {
        return false;
    }
    if vs[served] <= BITS_16 {
        return true;
    }
    vs[served] == NOBODY
}

// The deadline, 0 where the line has none.
pub fn deadline_in(version: u16, vs: &[u64]) -> u32
    requires { deadline_in version vs.now ≤ bits32 }
    ensures { result ≡ deadline_in version vs.now }
{
    if carries_ranks(version) {
        return double(value_at(vs, 2));
    }
    0
}

// Whom SERVED says.
pub fn served_in(x: u64) -> Option<Client>
    ensures { (x ≤ bits16 → served_in result ≡ served_of x) × (x ≡ dash → served_in result ≡ served_of x) }
{
    if BITS_16 < x {
        return None;
    }
    Some(Client(word(x)))
}
