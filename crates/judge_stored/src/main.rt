// The program `judge` once more, for the run that is stored of it over files: each program has one.
#![tactic(auto)]

use judge_files::run;
use std::process::ExitCode;

fn main(rt: HostRuntime) -> anyhow::Result<ExitCode> {
    run(&rt)
}
