// The budget quote: what an order of calls may burn of a client's budget, or why the order is refused.
#![tactic(auto)]

ghost use Rattle.std.specs.Prelude.{◌≡◌, ◌+◌, ◌*◌, ◌≤◌, ◌<◌, T, nat_abs, length, unwrap_or, IfSome};
ghost use Rattle.std.specs.Int.Signed.{non_neg};
ghost use Rattle.rules.specs.Demands.{worst};
ghost use Rattle.rules.specs.Limits.{max_lines, max_size, max_clusters};
ghost use Rattle.rules.specs.Quote.{order_of, quote, in_range, lines_fit, first_false, burnt, Even};
ghost use Rattle.quote.specs.Steps.{fields_out, LineIn, AllFit, most_of_line};
ghost use Rattle.quote.specs.Told.{told, numbers_of};

// Why an order is refused. A field is told by its place.
#[derive(Clone, Copy)]
pub enum Refusal {
    FieldOut(usize),
    OverPeriod,
    BadLines,
}

// An answer as document 01 numbers it.
#[derive(Clone, Copy)]
pub struct Numbers {
    pub budget: u64,
    pub answer: u64,
    pub place: usize,
}

const ACCEPTED: u64 = 0;

const FIELD_OUT: u64 = 30;

const OVER_PERIOD: u64 = 31;

const BAD_LINES: u64 = 32;

const MAX_WORK: u64 = 1000000000;

const MAX_PERIOD: u64 = 200000000000;

const MAX_SIZE: u64 = 8;

const MAX_CLUSTERS: u64 = 8;

pub const MAX_LINES: usize = 16;

const MAX_CALLS: u64 = 1000;

const MAX_CAP: u64 = 65535;

const MAX_TIDY: u64 = 65535;

// The numbers of an answer.
pub fn tell(quote: Result<u64, Refusal>) -> Numbers
    ensures { numbers_of result ≡ told quote }
{
    match quote {
        Ok(budget) => Numbers {
            budget,
            answer: ACCEPTED,
            place: 0,
        },
        Err(Refusal::FieldOut(place)) => Numbers {
            budget: 0,
            answer: FIELD_OUT,
            place,
        },
        Err(Refusal::OverPeriod) => Numbers {
            budget: 0,
            answer: OVER_PERIOD,
            place: 0,
        },
        Err(Refusal::BadLines) => Numbers {
            budget: 0,
            answer: BAD_LINES,
            place: 0,
        },
    }
}

// The budget of an order: own work e, period p, m, K and the columns N, L and W of its server lines. (The columns are
// not one list of lines: document 01 has an answer for columns that differ in length, `bad_lines`.)
pub fn budget(
    e: i64,
    p: i64,
    m: i64,
    k: i64,
    calls: &[i64],
    caps: &[i64],
    tidies: &[i64],
) -> Result<u64, Refusal>
    ensures { told result
        ≡ quote (order_of e p m k calls.now caps.now tidies.now) }
{
    if MAX_LINES < calls.len() {
        return Err(Refusal::BadLines);
    }
    if calls.len() != caps.len() {
        return Err(Refusal::BadLines);
    }
    if calls.len() != tidies.len() {
        return Err(Refusal::BadLines);
    }
    if let Some(place) = first_out(e, p, m, k, calls, caps, tidies) {
        return Err(Refusal::FieldOut(place));
    }
    let sum = whole(e) + lines_burn(whole(m), whole(k), calls, caps, tidies);
    if sum <= whole(p) {
        Ok(sum)
    } else {
        Err(Refusal::OverPeriod)
    }
}

// The place of the first field that is out of its range, if there is one.
fn first_out(
    e: i64,
    p: i64,
    m: i64,
    k: i64,
    calls: &[i64],
    caps: &[i64],
    tidies: &[i64],
) -> Option<usize>
    requires { Even calls.now caps.now tidies.now × (length calls.now ≤ max_lines) }
    ensures place { unwrap_or result (4 + 3 * length calls.now)
        ≡ fields_out (order_of e p m k calls.now caps.now tidies.now) }
    ensures within { IfSome result (λ place. place < 4 + 3 * length calls.now) }
{
    if !in_range(e, 1, MAX_WORK) {
        return Some(0);
    }
    if !in_range(p, 1, MAX_PERIOD) {
        return Some(1);
    }
    if !in_range(m, 1, MAX_SIZE) {
        return Some(2);
    }
    if !in_range(k, 1, MAX_CLUSTERS) {
        return Some(3);
    }
    lines_out(calls, caps, tidies)
}

// The same from the lines on: 4 + 3i for N of line i, 5 + 3i for its L, 6 + 3i for its W.
fn lines_out(calls: &[i64], caps: &[i64], tidies: &[i64]) -> Option<usize>
    requires { Even calls.now caps.now tidies.now × (length calls.now ≤ max_lines) }
    ensures place { unwrap_or result (4 + 3 * length calls.now)
        ≡ 4 + first_false (lines_fit calls.now caps.now tidies.now) }
    ensures within { IfSome result (λ place. place < 4 + 3 * length calls.now) }
{
    for i in 0..calls.len() {
        if !in_range(calls[i], 0, MAX_CALLS) {
            return Some(4 + 3 * i);
        }
        if !in_range(caps[i], 1, MAX_CAP) {
            return Some(5 + 3 * i);
        }
        if !in_range(tidies[i], 0, MAX_TIDY) {
            return Some(6 + 3 * i);
        }
    }
    None
}

// The sum over lines of N(2 + 2mK)(L + W).
fn lines_burn(m: u64, k: u64, calls: &[i64], caps: &[i64], tidies: &[i64]) -> u64
    requires m_le_max_size { (m ≤ max_size) × (k ≤ max_clusters) }
    requires calls_len_bound { (length calls.now ≤ max_lines) × AllFit calls.now caps.now tidies.now }
    ensures value { result ≡ burnt m k calls.now caps.now tidies.now }
    ensures upper_bound { result ≤ max_lines * most_of_line }
{
    let mut sum: u64 = 0;
    for i in 0..calls.len() {
        sum += line_burns(m, k, calls[i], caps[i], tidies[i]);
    }
    sum
}

// N(2 + 2mK)(L + W).
fn line_burns(m: u64, k: u64, n: i64, l: i64, w: i64) -> u64
    requires m_le_max_size { (m ≤ max_size) × (k ≤ max_clusters) }
    requires line_in { LineIn n l w }
    ensures value { result ≡ nat_abs n * worst m k (nat_abs l + nat_abs w) }
    ensures upper_bound { result ≤ most_of_line }
{
    let served = whole(l);
    let tidied = whole(w);
    whole(n) * ((2 + 2 * (m * k)) * (served + tidied))
}

// Whether x is a number from low to high.
fn in_range(x: i64, low: u64, high: u64) -> bool
    ensures { result ≡ in_range low high x }
{
    if x < 0 {
        return false;
    }
    let n = whole(x);
    low <= n && n <= high
}

fn whole(x: i64) -> u64
    requires { T (non_neg x) }
    ensures { result ≡ nat_abs x }
{
    x as u64
}
