// What a line of text says of a group: a word, and numbers behind it with exactly one space before each.
#![tactic(auto)]

ghost use Rattle.std.specs.Prelude.{◌≡◌, true, length, take};
ghost use Rattle.fields.specs.Fields.{fields};
ghost use Rattle.text.specs.Text.{space, bits8};
ghost use Rattle.lines.specs.Lines.{all_fit};
ghost use Rattle.group_rules.specs.Limits.{max_servers};
ghost use Rattle.group_says.specs.Says.{same, most_numbers, numbers_of, said_in};
ghost use Rattle.group_says.specs.Says.{entry_in, call_in, reply_in, by_word, says};

use group_rules::{Context, Event, Server, Tickets, no_tickets};
use lines::{MAX_LINE, fit};
use numerals::long_value;
use text::{BITS_8, BITS_64, SPACE};

// The most numbers of a line: context, timestamp, first call, and the tickets for each server.
const NUMBERS: usize = 19;

// What a line says: an event, with the tickets that it brings.
#[derive(Clone, Copy)]
pub struct Said {
    pub event: Event,
    pub tickets: Tickets,
}

// Whether two texts are the same.
fn is_word(s: &[u8], word: &[u8]) -> bool
    ensures { result ≡ same s.now word.now }
{
    s == word
}

// The numbers of the fields, from the first place on, and how many they are: none where one is no number of 64 bits, or
// there are more than places.
fn read_numbers(s: &[u8], v: &mut [u64]) -> usize
    requires { length v.old ≡ most_numbers }
    ensures value { result ≡ length (numbers_of (fields space s.now)) }
    ensures v_after { take result v.new ≡ numbers_of (fields space s.now) }
{
    let mut n = 0;
    let mut a = 0;
    while a <= s.len() {
        if n >= NUMBERS {
            return 0;
        }
        let e = fields::end(s, a, SPACE);
        let Some(x) = long_value(&s[a..e]) else {
            return 0;
        };
        v[n] = x;
        n += 1;
        a = e + 1;
    }
    n
}

// The tickets among the numbers of an entry.
fn tickets_in(v: &[u64]) -> Tickets
    requires { (length v.now ≡ max_servers) × (all_fit bits8 v.now ≡ true) }
    ensures { result.counts ≡ v.now }
{
    let mut counts = [0u8; 16];
    for (s, count) in counts.iter_mut().enumerate() {
        *count = v[s] as u8;
    }
    Tickets { counts }
}

fn entry_in(v: &[u64]) -> Option<Said>
    ensures { said_in result ≡ entry_in v.now }
{
    let mut widths = [BITS_8; NUMBERS];
    widths[1] = BITS_64;
    if !fit(&widths, v) {
        return None;
    }
    Some(Said {
        event: Event::Entry(Context(v[0] as u8), v[1], Server(v[2] as u8)),
        tickets: tickets_in(&v[3..]),
    })
}

fn call_in(v: &[u64]) -> Option<Said>
    ensures { said_in result ≡ call_in v.now }
{
    if !fit(&[BITS_8, BITS_8], v) {
        return None;
    }
    Some(Said {
        event: Event::Call(Context(v[0] as u8), Server(v[1] as u8)),
        tickets: no_tickets(),
    })
}

fn reply_in(v: &[u64]) -> Option<Said>
    ensures { said_in result ≡ reply_in v.now }
{
    if !fit(&[BITS_8], v) {
        return None;
    }
    Some(Said {
        event: Event::Reply(Context(v[0] as u8)),
        tickets: no_tickets(),
    })
}

// By the word, and the numbers behind it.
fn by_word(word: &[u8], v: &[u64]) -> Option<Said>
    ensures { said_in result ≡ by_word word.now v.now }
{
    if is_word(word, b"entry") {
        return entry_in(v);
    }
    if is_word(word, b"call") {
        return call_in(v);
    }
    if is_word(word, b"reply") {
        return reply_in(v);
    }
    None
}

// A line without its LF.
pub fn said_by(line: &[u8]) -> Option<Said>
    ensures { said_in result ≡ says line.now }
{
    if MAX_LINE < line.len() {
        return None;
    }
    let e = fields::end(line, 0, SPACE);
    if e == line.len() {
        return None;
    }
    let mut v = [0u64; NUMBERS];
    let n = read_numbers(&line[e + 1..], &mut v);
    by_word(&line[..e], &v[..n])
}
