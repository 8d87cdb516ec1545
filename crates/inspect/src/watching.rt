// What the table watch does on each mark that a node of the recipe has, as lines.
ghost use Rattle.std.specs.Prelude.{◌≡◌, ◌==◌, Some, length};
ghost use Rattle.std.specs.Fmt.{DisplaysOnOk};
ghost use Rattle.model.specs.Program.{node_at};
ghost use Rattle.recipe.specs.Offence.{any_below};
ghost use Rattle.recipe.specs.Recipes.{program};
ghost use Rattle.inspect.specs.Watching.{state_text, states_text, mark_text, watch_text};

use crate::asked::Going;
use crate::phrases::Many;
use recipe::Recipe;
use rules::{TableWatch, Watch};
use std::fmt;

// The watch of a recipe's rows.
#[derive(Drop)]
pub(crate) struct Watching<'r> {
    pub recipe: &'r Recipe<'r>,
}

// Whether a node has this mark.
fn uses(recipe: &Recipe, mark: u32) -> bool
    ensures { result ≡ any_below (length (program recipe.now).nodes) (λ n. (node_at (program recipe.now) n).mark == mark) }
{
    (0..recipe.nodes()).any(|n| recipe.node_at(n).mark == mark)
}

// Where a mark leads from a state, behind those before it.
fn write_state<W: fmt::Write>(
    f: &mut fmt::Formatter<W>,
    recipe: &Recipe,
    mark: u32,
    state: u32,
) -> fmt::Result
    ensures { DisplaysOnOk W.write_str_gives f.old result (Some (state_text (program recipe.now) mark state)) f.new }
{
    let going = Going::ask(recipe, state, mark);
    if state == 0 {
        write!(f, " {going}")
    } else {
        write!(f, ", {going}")
    }
}

// Where it leads from each.
fn write_states<W: fmt::Write>(f: &mut fmt::Formatter<W>, recipe: &Recipe, mark: u32) -> fmt::Result
    ensures { DisplaysOnOk W.write_str_gives f.old result (Some (states_text (program recipe.now) mark)) f.new }
{
    for state in 0..(TableWatch { recipe }).states() {
        write_state(f, recipe, mark, state)?;
    }
    Ok(())
}

// A line for a mark; none, if it is not used.
fn write_mark<W: fmt::Write>(f: &mut fmt::Formatter<W>, recipe: &Recipe, mark: u32) -> fmt::Result
    ensures { DisplaysOnOk W.write_str_gives f.old result (Some (mark_text (program recipe.now) mark)) f.new }
{
    if !uses(recipe, mark) {
        return Ok(());
    }
    write!(f, "  mark {mark}:")?;
    write_states(f, recipe, mark)?;
    f.write_str("\n")
}

impl fmt::Display for Watching<'_> {
    ghost output = { λ w. Some (watch_text (program w.recipe.now)) };

    fn fmt<W: fmt::Write>(&self, f: &mut fmt::Formatter<W>) -> fmt::Result {
        let watch = TableWatch {
            recipe: self.recipe,
        };
        let many = Many {
            number: watch.states(),
            what: "state",
        };
        let start = watch.start();
        writeln!(f, "watch of {many}, from state {start}")?;
        for mark in 0..32 {
            write_mark(f, self.recipe, mark)?;
        }
        Ok(())
    }
}
