// Reads a log, has the panel's writer write it again, and puts that on standard output; or, where the log or a record
// is refused, the refusal alone. The log is the file that the argument names, or standard input.
#![tactic(auto)]

use std::io::Write;
use streams::Failure;

fn main(rt: HostRuntime) {
    log_files::run(
        rt,
        b"usage: rewrite [LOG]\n",
        |log, output| rewrite(log, output),
    );
}

fn rewrite<W: Write>(log: &[u8], output: &mut W) -> Result<(), Failure> {
    let mut out = [0u8; layout::MAX_LOG];
    let k = rewriting::put_rewritten(log, &mut out);
    streams::write_out(output, &out[..k])
}
