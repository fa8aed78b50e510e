// Replays logs and compares: its arguments are files in pairs, a log and the report that is expected of it. It writes a
// line for each pair, then how many came out the same and how many did not. Each pair that did not is told on standard
// error too.
#![tactic(auto)]

ghost use Rattle.std.specs.Prelude.{◌≡◌, true, false, ◌*◌, ◌^◌, ◌<◌};
ghost use Rattle.std.specs.Option.{IsNone};
ghost use Rattle.report.specs.Report.{report_of};

use std::env::Env;
use std::io::{Read, Write};
use std::rt::Files;
use streams::{Failure, write_out};
use text::{put_bytes, put_number};

// Room for the last line: two numbers of 20 digits, and the words behind them.
const LINE: usize = 64;

// Argument 0 is the program's own name. A log without a report makes a pair with none.
fn main(rt: HostRuntime) {
    let pairs = log_files::argument_count(&rt) / 2;
    let _ = compare_all(&rt, &mut rt.stdout(), &mut rt.stderr(), pairs);
}

// Compares pair after pair, as long as there is somewhere to say so, and says how many came out the same, and how many
// did not.
fn compare_all<R: Env + Files, W: Write, E: Write>(
    rt: &R,
    stdout: &mut W,
    stderr: &mut E,
    pairs: usize,
) -> Result<(), Failure>
    requires { 2 * pairs < 2 ^ 64 }
{
    let mut same: usize = 0;
    for p in 0..pairs {
        if compare(rt, stdout, stderr, 2 * p + 1, 2 * p + 2)? {
            same += 1;
        }
    }
    let mut line = [0u8; LINE];
    let a = put_number(&mut line, 0, same as u64);
    let b = put_bytes(&mut line, a, b" same, ");
    let c = put_number(&mut line, b, (pairs - same) as u64);
    let end = put_bytes(&mut line, c, b" differ\n");
    put(stdout, stderr, &line[..end])
}

// Whether the log that argument i names has the report that argument j names, and says so.
fn compare<R: Env + Files, W: Write, E: Write>(
    rt: &R,
    stdout: &mut W,
    stderr: &mut E,
    i: usize,
    j: usize,
) -> Result<bool, Failure> {
    let log = log_files::open_argument(rt, stderr, i);
    let expected = log_files::open_argument(rt, stderr, j);
    let is_same = is_report(log, expected, stderr);
    tell(rt, stdout, stderr, i, is_same)?;
    Ok(is_same)
}

// Whether two open files are a log and its report. A file that isn't open or can't be read is neither.
fn is_report<F: Read + Drop, E: Write>(log: Option<F>, expected: Option<F>, stderr: &mut E) -> bool
    ensures value { IsNone log → result ≡ false }
    ensures value_2 { IsNone expected → result ≡ false }
{
    let Some(mut log) = log else {
        return false;
    };
    let Some(mut expected) = expected else {
        return false;
    };
    let mut bytes = [0u8; layout::MAX_LOG + 1];
    let b = log_files::read_log(&mut log, &mut bytes);
    let mut text = [0u8; report::MAX_TEXT + 1];
    let t = log_files::read_report(&mut expected, &mut text);
    let (Ok(n), Ok(k)) = (b, t) else {
        streams::tell(stderr, Failure::Unread.line());
        return false;
    };
    matches(&bytes[..n], &text[..k])
}

// Whether a text is the report of a log.
fn matches(log: &[u8], text: &[u8]) -> bool
    ensures text_value { result ≡ true → text.now ≡ report_of log.now }
    ensures value { text.now ≡ report_of log.now → result ≡ true }
{
    let mut out = [0u8; report::MAX_TEXT];
    let k = log_report::report(log, &mut out);
    check::same(&out[..k], text)
}

// Says of a pair what was found.
fn tell<R: Env, W: Write, E: Write>(
    rt: &R,
    stdout: &mut W,
    stderr: &mut E,
    i: usize,
    is_same: bool,
) -> Result<(), Failure> {
    let mut path = [0u8; log_files::PATH];
    let n = log_files::argument(rt, i, &mut path).unwrap_or(0);
    put(stdout, stderr, &path[..n])?;
    if is_same {
        return put(stdout, stderr, b" same\n");
    }
    let written = put(stdout, stderr, b" differs\n");
    streams::tell(stderr, &path[..n]);
    streams::tell(stderr, b" differs\n");
    written
}

// Writes, and tells a failure at once, before what is told behind it.
fn put<W: Write, E: Write>(stdout: &mut W, stderr: &mut E, bytes: &[u8]) -> Result<(), Failure> {
    let written = write_out(stdout, bytes);
    if let Err(failure) = written {
        streams::tell(stderr, failure.line());
    }
    written
}
