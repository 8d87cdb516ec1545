// What a run or an inquiry is about.
ghost use Rattle.std.specs.Prelude.{◌≡◌};
ghost use Rattle.model.specs.Runs.{reads};
ghost use Rattle.recipe.specs.Recipes.{program};

use crate::{AccessRule, Watch};
use recipe::Recipe;

// A recipe, the rule that it is run under, and the watch that reads its marks.
#[derive(Drop)]
pub struct Subject<'s, R, W> {
    pub recipe: &'s Recipe<'s>,
    pub rule: &'s R,
    pub watch: &'s W,
}

impl<R: AccessRule, W: Watch> Subject<'_, R, W> {
    // The watch's state after a node that is come to.
    pub fn step_to(&self, state: u32, node: u32) -> u32
        ensures { result ≡ (W.watching self.now.watch.now).step state (reads (program self.now.recipe.now) node) }
    {
        self.watch.step(state, self.recipe.node_at(node).mark)
    }
}
