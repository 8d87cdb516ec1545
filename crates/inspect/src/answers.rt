// What both access rules make of each call and each check, as lines.
ghost use Rattle.std.specs.Prelude.{Some};
ghost use Rattle.std.specs.Fmt.{DisplaysOnOk};
ghost use Rattle.recipe.specs.Recipes.{program};
ghost use Rattle.inspect.specs.Answers.{answer_text, answers_text};

use crate::asked::{AtCall, AtCheck};
use recipe::{Kind, Recipe};
use std::fmt;

// The answers at all nodes; the entries are one of each method.
#[derive(Drop)]
pub(crate) struct Answers<'r> {
    pub recipe: &'r Recipe<'r>,
    pub entries: &'r [u32],
}

// What is said of one node: nothing where no rule is asked.
fn write_answer<W: fmt::Write>(
    f: &mut fmt::Formatter<W>,
    recipe: &Recipe,
    entries: &[u32],
    n: u32,
) -> fmt::Result
    ensures { DisplaysOnOk W.write_str_gives f.old result (Some (answer_text (program recipe.now) entries.now n)) f.new }
{
    match recipe.node_at(n).kind {
        Kind::Call { callee, .. } => {
            let entry = entries.get(callee as usize).copied().unwrap_or(0);
            let answer = AtCall::ask(recipe, n, entry);
            writeln!(f, "{answer}")
        }
        Kind::Check { .. } => {
            let answer = AtCheck::ask(recipe, n);
            writeln!(f, "{answer}")
        }
        Kind::Nop | Kind::Return => Ok(()),
    }
}

impl fmt::Display for Answers<'_> {
    ghost output = { λ a. Some (answers_text (program a.recipe.now) a.entries.now) };

    fn fmt<W: fmt::Write>(&self, f: &mut fmt::Formatter<W>) -> fmt::Result {
        for n in 0..self.recipe.nodes() {
            write_answer(f, self.recipe, self.entries, n)?;
        }
        Ok(())
    }
}
