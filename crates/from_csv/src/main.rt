// Reads comma-separated lines from standard input, and writes the log that they say to standard output; or, where a
// line is bad or the log is refused, the refusal alone.
#![tactic(auto)]

use importing::{LOG, PART};
use std::io::{Read, Write};
use streams::{Failure, read_some, write_out};

fn main(rt: HostRuntime) {
    if let Err(failure) = import(&mut rt.stdin(), &mut rt.stdout()) {
        streams::tell(&mut rt.stderr(), failure.line());
    }
}

// Imports the lines of an input, to its end.
fn import<R: Read, W: Write>(input: &mut R, output: &mut W) -> Result<(), Failure> {
    let mut log = [0u8; LOG];
    let mut part = [0u8; PART];
    let mut held = importing::begin(&mut log);
    // Nothing says that an input ends, and a proved loop has to: this one does after turns that no run uses up.
    for _ in 0..u64::MAX {
        let k = read_some(input, &mut part)?;
        if k == 0 {
            let n = importing::put_verdict(held, &mut log);
            return write_out(output, &log[..n]);
        }
        held = importing::read_part(held, &part, k, &mut log);
    }
    Ok(())
}
