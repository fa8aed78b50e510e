// A field's text as a number: decimal, with an optional minus sign; or a plain one, without sign or leading zeros.
#![tactic(auto)]

ghost use Rattle.std.specs.Prelude.{◌≡◌, unwrap_or};
ghost use Rattle.text.specs.Text.{max_count};
ghost use Rattle.numerals.specs.Numbers.{field_of, out_of_range, digits};
ghost use Rattle.numerals.specs.Plain.{zero_first, plain_of, long_told, up_to, long_of};

const MINUS: u8 = b'-';

const ZERO: u8 = b'0';

// 2^32: one more than the greatest plain number.
pub const NO_PLAIN: u64 = 4294967296;

// The number, or -1 where it is none or does not fit: document 01 counts such a field as -1, which is in no range.
pub fn field_value(f: &[u8]) -> i64
    ensures { result ≡ field_of f.now }
{
    signed(f).unwrap_or(-1)
}

// The plain number, or NO_PLAIN where it is none or does not fit 32 bits. (A number and not an `Option<u32>`: `lines`
// tells by one comparison whether it fits its width.)
pub fn plain_value(f: &[u8]) -> u64
    ensures { result ≡ plain_of f.now }
{
    long_value(f).unwrap_or(NO_PLAIN).min(NO_PLAIN)
}

// The plain number, if it fits 64 bits.
pub fn long_value(f: &[u8]) -> Option<u64>
    ensures { long_told result ≡ long_of f.now }
{
    if zero_first(f) { None } else { size(f) }
}

// The number, if it fits 64 bits signed.
fn signed(f: &[u8]) -> Option<i64>
    ensures { unwrap_or result out_of_range ≡ field_of f.now }
{
    let [first, rest @ ..] = f else {
        return None;
    };
    if *first == MINUS {
        0i64.checked_sub_unsigned(size(rest)?)
    } else {
        0i64.checked_add_unsigned(size(f)?)
    }
}

fn zero_first(f: &[u8]) -> bool
    ensures { result ≡ zero_first f.now }
{
    matches!(f, [ZERO, _, ..])
}

// The number that digits spell, if they do and it fits 64 bits.
fn size(f: &[u8]) -> Option<u64>
    ensures { long_told result ≡ up_to max_count (digits f.now) }
{
    if f.is_empty() {
        return None;
    }
    let mut n: u64 = 0;
    for b in f {
        if !b.is_ascii_digit() {
            return None;
        }
        n = n.checked_mul(10)?.checked_add(u64::from(*b - ZERO))?;
    }
    Some(n)
}
