// Reads orders from standard input, one a line, and writes the quote of each: `BUDGET ANSWER PLACE`.
#![tactic(auto)]

use form::{OUT, PART};
use std::io::{Read, Write};
use streams::{Failure, read_some, write_out};

fn main(rt: HostRuntime) {
    if let Err(failure) = answer(&mut rt.stdin(), &mut rt.stdout()) {
        streams::tell(&mut rt.stderr(), failure.line());
    }
}

// Answers the orders of an input part by part, to its end.
fn answer<R: Read, W: Write>(input: &mut R, output: &mut W) -> Result<(), Failure> {
    let mut part = [0u8; PART];
    let mut out = [0u8; OUT];
    let mut held = form::none_held();
    // Nothing says that an input ends, and a proved loop has to: this one does after turns that no run uses up.
    for _ in 0..u64::MAX {
        let k = read_some(input, &mut part)?;
        if k == 0 {
            let used = form::answer_end(held, &mut out);
            return write_out(output, &out[..used]);
        }
        held = form::answer_part(held, &part, k, &mut out);
        write_out(output, &out[..held.used])?;
    }
    Ok(())
}
