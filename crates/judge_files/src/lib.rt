// The whole of the program `judge`: what it does with its arguments and its input.
#![tactic(auto)]

use anyhow::Result;
use clap::{Arg, ArgAction, Command};
use judging::{Named, Status, Tables, exit_status};
use std::io::{ErrorKind, Read};
use std::process::ExitCode;
use std::{env, fs};

// Judges what stands on the input.
fn judge_input(rt: &HostRuntime) -> Result<()> {
    let mut file = Vec::new(rt.alloc());
    rt.stdin().read_to_end(&mut file)?;
    let tables = Tables::new(rt.alloc())?;
    rt.println(tables.verdicts(&file))?;
    Ok(())
}

// Judges a file and prints its name and its verdicts; one that cannot be read gets a line on the standard error. Fails where memory runs out, or it cannot print.
fn judge_file(rt: &HostRuntime, name: &str) -> Result<Status> {
    let file = match fs::read(rt, name) {
        Ok(file) => file,
        // want of memory says nothing of this file, and ends the program
        Err(error) if error.kind() == ErrorKind::OutOfMemory => return Err(error.into()),
        Err(error) => {
            eprintln!(rt; "judge: {name}: {error}")?;
            return Ok(Status::NotJudged);
        }
    };
    let verdicts = Tables::new(rt.alloc())?.verdicts(&file);
    rt.println(Named {
        name,
        verdicts: &verdicts,
    })?;
    Ok(verdicts.status())
}

const ENDS: &str =
    "It ends with 0 where every verdict of the files is safe, 1 where one is not, 2 where a file is refused or cannot be read; with 0 after standard input, and with 1 where memory runs out or it cannot print.";

// Judges the files that are named in the arguments, one after another, or what stands on the input where none is named.
// Ends with 0 where every verdict of the files is safe, 1 where one is not, and 2 where a file is refused or cannot be read, or an argument is wrong. After the input it ends with 0. Want of memory, and output that fails, end it with 1.
pub fn run(rt: &HostRuntime) -> Result<ExitCode> {
    let alloc = rt.alloc();
    let words: Vec<String> = env::args(rt)?.collect(alloc)?;
    let files = Arg::new(alloc, "FILE")
        .help("Recipe files to judge [default: the standard input]")
        .num_args(0..)
        .action(ArgAction::Append);
    let command = Command::new(alloc, "judge")
        .about(
            "Prints the verdicts of recipe files under history-based rights and under stack inspection",
        )
        .after_help(ENDS)
        .arg(files)?;
    let matches = match command.try_get_matches_from(words.as_slice()) {
        Ok(matches) => matches,
        Err(error) => {
            error.print(rt)?;
            return Ok(ExitCode::from(error.exit_code() as u8));
        }
    };
    let Some(names) = matches.get_strs("FILE") else {
        judge_input(rt)?;
        return Ok(ExitCode::SUCCESS);
    };
    let mut statuses = Vec::new(alloc);
    for name in names {
        statuses.push(judge_file(rt, name)?)?;
    }
    Ok(ExitCode::from(exit_status(&statuses)))
}
