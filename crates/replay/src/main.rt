// Replays a log and writes its report to standard output. The log is the file that the argument names, or standard
// input.
#![tactic(auto)]

use std::io::Write;
use streams::Failure;

fn main(rt: HostRuntime) {
    log_files::run(
        rt,
        b"usage: replay [LOG]\n",
        |log, output| replay(log, output),
    );
}

fn replay<W: Write>(log: &[u8], output: &mut W) -> Result<(), Failure> {
    let mut out = [0u8; report::MAX_TEXT];
    let k = log_report::report(log, &mut out);
    streams::write_out(output, &out[..k])
}
