// Reads a recipe file from standard input and says in words what it holds, or why it is refused.
#![tactic(auto)]

use explaining::explain;
use recipe::{Edge, Recipe, recipe_of};
use showing::Refused;
use std::io::Read;

mod answers;
mod asked;
mod listing;
mod phrases;
mod ruled;
mod steps;
mod transitions;
mod watching;
mod written;

use answers::Answers;
use listing::list_methods;
use phrases::Many;
use ruled::first_entries;
use transitions::list_rows;
use watching::Watching;
use written::write_back;

// How long the file is, and how many of each kind the recipe has, as a line.
fn print_counts(rt: &HostRuntime, recipe: &Recipe, bytes: usize) -> anyhow::Result<()> {
    let methods = Many {
        number: recipe.methods(),
        what: "method",
    };
    let nodes = Many {
        number: recipe.nodes(),
        what: "node",
    };
    let edges = Many {
        number: recipe.edges(),
        what: "edge",
    };
    let rows = Many {
        number: recipe.rows(),
        what: "row",
    };
    println!(rt; "recipe of {bytes} bytes: {methods}, {nodes}, {edges}, {rows}")?;
    Ok(())
}

// All that is told of a file.
fn inspect(rt: &HostRuntime, file: &[u8]) -> anyhow::Result<()> {
    let recipe = match recipe_of(file) {
        Ok(recipe) => recipe,
        Err(refusal) => {
            let number = Refused(refusal);
            println!(rt; "{number}: {refusal}")?;
            if let Some(why) = explain(file, refusal) {
                println!(rt; "{why}")?;
            }
            return Ok(());
        }
    };
    let edges: Vec<Edge> = recipe.own_edges().collect(rt.alloc())?;
    print_counts(rt, &recipe, file.len())?;
    list_methods(rt, &recipe, &edges)?;
    list_rows(rt, &recipe)?;
    let entries = first_entries(rt.alloc(), &recipe)?;
    let answers = Answers {
        recipe: &recipe,
        entries: &entries,
    };
    let watching = Watching { recipe: &recipe };
    print!(rt; "{answers}{watching}")?;
    match write_back(rt.alloc(), &recipe, &edges, file)? {
        Ok(written) => println!(rt; "written back: {written}")?,
        Err(refusal) => println!(rt; "written back: {}", Refused(refusal))?,
    }
    Ok(())
}

fn main(rt: HostRuntime) -> anyhow::Result<()> {
    let mut file = Vec::new(rt.alloc());
    rt.stdin().read_to_end(&mut file)?;
    inspect(&rt, &file)
}
