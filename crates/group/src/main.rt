// Reads events of a group from standard input, one a line, from the group that nobody has entered, and writes a line
// for each: `INDEX ANSWER` and a field for each context. The first malformed line gives `malformed LINE`, and is the
// last that is read.
#![tactic(auto)]

use group_lines::{OUT, PART};
use std::io::{Read, Write};
use streams::{Failure, read_some, write_out};

fn main(rt: HostRuntime) {
    if let Err(failure) = answer(&mut rt.stdin(), &mut rt.stdout()) {
        streams::tell(&mut rt.stderr(), failure.line());
    }
}

// Answers the events of an input part by part, to its end or its first malformed line.
fn answer<R: Read, W: Write>(input: &mut R, output: &mut W) -> Result<(), Failure> {
    let mut part = [0u8; PART];
    let mut out = [0u8; OUT];
    let mut held = group_lines::none_held();
    // Nothing says that an input ends, and a proved loop has to: this one does after turns that no run uses up.
    for _ in 0..u64::MAX {
        let k = read_some(input, &mut part)?;
        if k == 0 {
            let used = group_lines::read_end(held, &mut out);
            return write_out(output, &out[..used]);
        }
        held = group_lines::read_part(held, &part, k, &mut out);
        write_out(output, &out[..held.used])?;
        if held.run.malformed {
            break;
        }
    }
    Ok(())
}
