// Judges recipe files: those that are named in its arguments, or the one on standard input.
#![tactic(auto)]

use judge_files::run;
use std::process::ExitCode;

fn main(rt: HostRuntime) -> anyhow::Result<ExitCode> {
    run(&rt)
}
