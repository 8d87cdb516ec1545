// What an inquiry is lent.
ghost use Rattle.std.specs.Prelude.{◌≤◌, length};
ghost use Rattle.std.specs.Option.{ForSome};
ghost use Rattle.model.specs.Program.{counted};
ghost use Rattle.recipe.specs.Recipes.{program};
ghost use Rattle.inquiry.specs.Sides.{LaidBy};

use crate::laying::Laid;
use recipe::Edge;
use rules::Subject;

// What an inquiry is about, the edges of its table that are in use, and the targets of those of them that count, where these are laid.
#[derive(Drop)]
pub(crate) struct Scene<'s, R, W> {
    pub on: &'s Subject<'s, R, W>,
    pub edges: &'s [Edge],
    pub laid: Option<&'s Laid>,
    ghost few: { length edges.now ≤ 4096 },
    ghost laid_by: { ForSome laid (λ l. LaidBy (counted (program on.now.recipe.now) edges.now) l.now.parts l.now.targets) },
}
