// Text in a lent buffer: bytes and numbers, each written from a place on. A caller sees to it that there is room.
#![tactic(auto)]

ghost use Rattle.std.specs.Prelude.{◌∷◌, [], ◌++◌, ◌≡◌, ◌+◌, ◌≤◌, ◌<◌, length, take};
ghost use Rattle.text.specs.Text.{max_digits, next_count, decimal, WroteAt};

// What ends a line.
pub const LF: u8 = 10;

pub const SPACE: u8 = 32;

pub const COMMA: u8 = 44;

// What stands before the LF of a line that ends in both.
pub const CR: u8 = 13;

// The largest numbers of 8, 16, 32 and 64 bits.
pub const BITS_8: u64 = 255;

pub const BITS_16: u64 = 65535;

pub const BITS_32: u64 = 4294967295;

pub const BITS_64: u64 = 18446744073709551615;

// One byte at a place.
pub fn put_byte(out: &mut [u8], at: usize, b: u8) -> usize
    requires { at < length out.old }
    ensures { WroteAt at (b ∷ []) out.old out.new result }
{
    out[at] = b;
    at + 1
}

// Some bytes from a place on.
pub fn put_bytes(out: &mut [u8], at: usize, s: &[u8]) -> usize
    requires { at + length s.now ≤ length out.old }
    ensures { WroteAt at s.now out.old out.new result }
{
    let end = at + s.len();
    out[at..end].copy_from_slice(s);
    end
}

// More bytes behind the n that are held in a room, as many as have room; and how many are held then.
pub fn hold(room: &mut [u8], n: usize, more: &[u8]) -> usize
    requires { n ≤ length room.old }
    ensures upper_bound { result ≤ length room.old }
    ensures room_after { take result room.new
        ≡ take (length room.old) (take n room.old ++ more.now) }
{
    let k = more.len().min(room.len() - n);
    put_bytes(room, n, &more[..k])
}

// How many digits a number has.
fn digits(n: u64) -> usize
    ensures { result ≡ length (decimal n) }
{
    match n.checked_ilog10() {
        Some(k) => k as usize + 1,
        None => 1,
    }
}

// The digits of a number from a place on, the last written first.
pub fn put_number(out: &mut [u8], at: usize, n: u64) -> usize
    requires { at + max_digits ≤ length out.old }
    ensures wrote_at { WroteAt at (decimal n) out.old out.new result }
    ensures upper_bound { result ≤ at + max_digits }
{
    let end = at + digits(n);
    let mut left = n;
    let mut i = end;
    while left >= 10 {
        i -= 1;
        out[i] = b'0' + (left % 10) as u8;
        left = left / 10;
    }
    out[at] = b'0' + left as u8;
    end
}

// One more; the last number stays.
pub fn next_count(n: u64) -> u64
    ensures { result ≡ next_count n }
{
    n.saturating_add(1)
}
