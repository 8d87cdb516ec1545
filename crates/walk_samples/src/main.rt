// For each argument, a file's name and the words of a command: prints the argument, and then what walk prints for them.
#![tactic(auto)]

use following::told;
use std::{env, fs};

fn main(rt: HostRuntime) -> anyhow::Result<()> {
    let mut cases = env::args(&rt)?;
    let _program = cases.next();
    for case in cases {
        let mut parts = case.as_str().split_whitespace();
        let Some(name) = parts.next() else {
            continue;
        };
        let file = fs::read(&rt, name)?;
        let mut words = Vec::new(rt.alloc());
        for word in parts {
            words.push(String::from_str(rt.alloc(), word)?)?;
        }
        let text = told(rt.alloc(), &file, &words)?;
        println!(rt; "{case}\n{text}")?;
    }
    Ok(())
}
