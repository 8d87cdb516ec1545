// Reads a file and inquires into it under both rules, in lent memory.
ghost use Rattle.std.specs.Prelude.{◌≡◌, length};
ghost use Rattle.recipe.specs.Bytes.{edges_of};
ghost use Rattle.recipe.specs.Recipes.{file_of};
ghost use Rattle.inquiry.specs.Calls.{answered, unless, fit_answer};
ghost use Rattle.judging.specs.Judged.{setting_in, searched, found_in, both_in, room_in, may_judge, judgement_in, outcome_of, outcomes_of, sizes_of, over, with_trace, rows_in, JudgedRight};
ghost use Rattle.judging.specs.Parts.{written_of};

use crate::{Outcome, Outcomes};
use asking::{Reply, Request, ask};
use inquiry::Fact;
use recipe::{Edge, Recipe, Refusal, recipe_of};
use rules::{AccessRule, History, StackInspection, Subject, TableWatch};

// The most places of a fact table that fits.
const MOST_FACTS: usize = 65_536;

// How many nodes a reply says were written, or why none were.
fn written(reply: Result<Reply, Refusal>) -> Result<usize, Refusal>
    ensures { result ≡ written_of reply }
{
    match reply {
        Ok(reply) => Ok(reply.written()),
        Err(refusal) => Err(refusal),
    }
}

// Inquires into a recipe under a rule, works as many facts as the table has places, and asks for the trace of the first bad fact.
fn inquired<R: AccessRule>(
    recipe: &Recipe,
    rule: &R,
    facts: &mut [Fact],
    edges: &mut [Edge],
    output: &mut [u32],
) -> Result<Outcome, Refusal>
    ensures answer { let bs = file_of recipe.now in let X = setting_in (R.meaning rule.now) bs in result ≡ answered (fit_answer X (length (edges_of bs)) (length facts.old) (length edges.old)) (outcome_of (found_in (R.meaning rule.now) (length facts.old) (length output.old) bs)) }
    ensures facts { let bs = file_of recipe.now in let X = setting_in (R.meaning rule.now) bs in facts.new ≡ unless (fit_answer X (length (edges_of bs)) (length facts.old) (length edges.old)) (over (searched (R.meaning rule.now) (length facts.old) bs).rows facts.old) facts.old }
    ensures edges { let bs = file_of recipe.now in let X = setting_in (R.meaning rule.now) bs in edges.new ≡ unless (fit_answer X (length (edges_of bs)) (length facts.old) (length edges.old)) (over (edges_of bs) edges.old) edges.old }
    ensures output { let bs = file_of recipe.now in let X = setting_in (R.meaning rule.now) bs in output.new ≡ unless (fit_answer X (length (edges_of bs)) (length facts.old) (length edges.old)) (with_trace (found_in (R.meaning rule.now) (length facts.old) (length output.old) bs).trace output.old) output.old }
{
    let watch = TableWatch { recipe };
    let on = Subject {
        recipe,
        rule,
        watch: &watch,
    };
    let allowed = facts.len().min(MOST_FACTS) as u32;
    let requests = [Request::Dig { allowed }, Request::Trace { room: u32::MAX }];
    let mut replies = [Err(Refusal::NotUnsafe), Err(Refusal::NotUnsafe)];
    let report = ask(&on, facts, edges, output, &requests, &mut replies)?;
    let trace = written(replies[1]);
    Ok(Outcome { report, trace })
}

// Inquires into a recipe under both rules, one after the other.
fn inquired_twice(
    recipe: &Recipe,
    facts: &mut [Fact],
    edges: &mut [Edge],
    history: &mut [u32],
    stack: &mut [u32],
) -> Result<Outcomes, Refusal>
    ensures answer { let bs = file_of recipe.now in let z = sizes_of facts.old edges.old history.old stack.old in result ≡ answered (room_in z bs) (outcomes_of (both_in z bs)) }
    ensures facts { let bs = file_of recipe.now in let z = sizes_of facts.old edges.old history.old stack.old in facts.new ≡ unless (room_in z bs) (rows_in z.facts bs facts.old) facts.old }
    ensures edges { let bs = file_of recipe.now in let z = sizes_of facts.old edges.old history.old stack.old in edges.new ≡ unless (room_in z bs) (over (edges_of bs) edges.old) edges.old }
    ensures history { let bs = file_of recipe.now in let z = sizes_of facts.old edges.old history.old stack.old in history.new ≡ unless (room_in z bs) (with_trace (both_in z bs).0.trace history.old) history.old }
    ensures stack { let bs = file_of recipe.now in let z = sizes_of facts.old edges.old history.old stack.old in stack.new ≡ unless (room_in z bs) (with_trace (both_in z bs).1.trace stack.old) stack.old }
{
    let history = inquired(recipe, &History, facts, edges, history)?;
    let stack = inquired(recipe, &StackInspection, facts, edges, stack)?;
    Ok(Outcomes { history, stack })
}

// Reads a file and inquires into its recipe under both rules, in memory that is lent: it gets none, and fails only where the file is refused, or a table does not fit.
// Refused with 1 to 6 as the file is, else with 9 as `inquiry::fit` refuses the tables; nothing is written then.
pub fn judge_in(
    file: &[u8],
    facts: &mut [Fact],
    edges: &mut [Edge],
    history: &mut [u32],
    stack: &mut [u32],
) -> Result<Outcomes, Refusal>
    ensures answer { let z = sizes_of facts.old edges.old history.old stack.old in result ≡ answered (may_judge z file.now) (outcomes_of (both_in z file.now)) }
    ensures facts { let z = sizes_of facts.old edges.old history.old stack.old in facts.new ≡ unless (may_judge z file.now) (rows_in z.facts file.now facts.old) facts.old }
    ensures edges { let z = sizes_of facts.old edges.old history.old stack.old in edges.new ≡ unless (may_judge z file.now) (over (edges_of file.now) edges.old) edges.old }
    ensures history { let z = sizes_of facts.old edges.old history.old stack.old in history.new ≡ unless (may_judge z file.now) (with_trace (both_in z file.now).0.trace history.old) history.old }
    ensures stack { let z = sizes_of facts.old edges.old history.old stack.old in stack.new ≡ unless (may_judge z file.now) (with_trace (both_in z file.now).1.trace stack.old) stack.old }
    ensures tells { let z = sizes_of facts.old edges.old history.old stack.old in JudgedRight z file.now (judgement_in z file.now) }
{
    let recipe = recipe_of(file)?;
    inquired_twice(&recipe, facts, edges, history, stack)
}
