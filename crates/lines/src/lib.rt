// A line of text: the numbers behind its letter, and whether they fit their widths.
#![tactic(auto)]

ghost use Rattle.std.specs.Prelude.{◌≡◌, true, ◌≤◌, length, take};
ghost use Rattle.text.specs.Text.{bits32};
ghost use Rattle.lines.specs.Lines.{value_of, begins, values_of, fit_in, all_fit};

use numerals::{NO_PLAIN, plain_value};

const DASH: u8 = b'-';

// The most bytes of a line, without its LF.
pub const MAX_LINE: usize = 1023;

// What stands for a `-`.
pub const NOBODY: u64 = NO_PLAIN + 1;

// A line has no more numbers than this.
pub const MOST: usize = 1024;

// The numbers of a line behind a letter, each behind a separator, from the first place on, and how many they are. One
// that fits no width in a line that begins otherwise or is too long.
pub fn values_of(line: &[u8], letter: u8, separator: u8, v: &mut [u64; MOST]) -> usize
    ensures value { result ≡ length (values_of letter separator line.now) }
    ensures v_after { take result v.new ≡ values_of letter separator line.now }
{
    if !is_begun(line, letter, separator) {
        v[0] = NO_PLAIN;
        return 1;
    }
    if line.len() == 1 {
        return 0;
    }
    fields::read_each(&line[2..], separator, v, value)
}

// Whether a line is the letter alone, or begins with it and a separator.
fn is_begun(line: &[u8], letter: u8, separator: u8) -> bool
    ensures { result ≡ begins letter separator line.now }
{
    if line.len() < 1 {
        return false;
    }
    if MAX_LINE < line.len() {
        return false;
    }
    if line[0] != letter {
        return false;
    }
    if line.len() == 1 {
        return true;
    }
    line[1] == separator
}

// The number of a field.
fn value(f: &[u8]) -> u64
    ensures { result ≡ value_of f.now }
{
    if matches!(f, [DASH]) {
        NOBODY
    } else {
        plain_value(f)
    }
}

// Whether there are as many numbers as widths, and each fits its own.
pub fn fit(widths: &[u64], values: &[u64]) -> bool
    ensures { result ≡ fit_in widths.now values.now }
{
    if widths.len() != values.len() {
        return false;
    }
    for (i, x) in values.iter().enumerate() {
        if widths[i] < *x {
            return false;
        }
    }
    true
}

// Whether all are numbers of 32 bits. If so they stand as such from the first place on.
pub fn narrowed(values: &[u64], out: &mut [u32]) -> bool
    requires { length values.now ≤ length out.old }
    ensures value { result ≡ all_fit bits32 values.now }
    ensures out_after { result ≡ true → take (length values.now) out.new ≡ values.now }
{
    for (i, x) in values.iter().enumerate() {
        let Ok(narrow) = u32::try_from(*x) else {
            return false;
        };
        out[i] = narrow;
    }
    true
}
