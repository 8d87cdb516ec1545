// Prints what is said of a recipe file and of the words of the command: a rule's name, and a list of nodes that is followed under that rule. The file is read from standard input, where the words ask for one.
#![tactic(auto)]

use following::{asks_file, told};
use std::env;
use std::io::Read;

fn main(rt: HostRuntime) -> anyhow::Result<()> {
    let words: Vec<String> = env::args(&rt)?.skip(1).collect(rt.alloc())?;
    let mut file = Vec::new(rt.alloc());
    if asks_file(rt.alloc(), &words)? {
        rt.stdin().read_to_end(&mut file)?;
    }
    rt.println(told(rt.alloc(), &file, &words)?)?;
    Ok(())
}
