// Reads a log from standard input, and writes it to standard output as comma-separated lines; or, where it is refused,
// the refusal alone.
#![tactic(auto)]

use std::io::Write;
use streams::Failure;

fn main(rt: HostRuntime) {
    log_files::run_on(rt, &mut rt.stdin(), |log, output| export(log, output));
}

fn export<W: Write>(log: &[u8], output: &mut W) -> Result<(), Failure> {
    let mut out = [0u8; items::MAX_CSV];
    let k = exporting::put_exported(log, &mut out);
    streams::write_out(output, &out[..k])
}
