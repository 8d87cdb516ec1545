// A whole inquiry in one call.
ghost use Rattle.std.specs.Prelude.{◌≡◌, ◌++◌, length, drop, IfOk};
ghost use Rattle.model.specs.Tables.{opened, dug};
ghost use Rattle.recipe.specs.Recipes.{own_edges};
ghost use Rattle.rules.specs.Subjects.{setting_of};
ghost use Rattle.inquiry.specs.Calls.{answered, unless, fit_answer, report_of};
ghost use Rattle.inquiry.specs.Promises.{Comes};

use crate::{Inquiry, Report};
use model::Fact;
use recipe::{Edge, Refusal};
use rules::{AccessRule, Subject, Watch};

// Opens an inquiry, digs for so many facts, and closes it. The report tells of every run of the recipe, at any length and call depth.
pub fn inquire<R: AccessRule, W: Watch>(
    on: &Subject<R, W>,
    facts: &mut [Fact],
    edges: &mut [Edge],
    allowed: u32,
) -> Result<Report, Refusal>
    ensures answer { let own = own_edges on.now.recipe.now in let X = setting_of R.meaning W.watching on.now own in let end = dug X (length facts.old) allowed (opened X (length facts.old)) in result ≡ answered (fit_answer X (length own) (length facts.old) (length edges.old)) (report_of X.watch end) }
    ensures facts { let own = own_edges on.now.recipe.now in let X = setting_of R.meaning W.watching on.now own in let end = dug X (length facts.old) allowed (opened X (length facts.old)) in facts.new ≡ unless (fit_answer X (length own) (length facts.old) (length edges.old)) (end.rows ++ drop (length end.rows) facts.old) facts.old }
    ensures edges { let own = own_edges on.now.recipe.now in let X = setting_of R.meaning W.watching on.now own in edges.new ≡ unless (fit_answer X (length own) (length facts.old) (length edges.old)) (own ++ drop (length own) edges.old) edges.old }
    ensures told { let own = own_edges on.now.recipe.now in let X = setting_of R.meaning W.watching on.now own in let end = dug X (length facts.old) allowed (opened X (length facts.old)) in IfOk result (Comes X (length facts.old) allowed end) }
{
    let mut inquiry = Inquiry::open(on, facts, edges);
    let _ = inquiry.dig(on, edges, allowed);
    inquiry.close(on.watch)
}
