// Joins calls with returns, by rule 4: which facts go together, and where the next one stands.
ghost use Rattle.std.specs.Prelude.{◌≡◌, ◌<◌, ◌≤◌, true, false};
ghost use Rattle.model.specs.Runs.{returns_at};
ghost use Rattle.model.specs.Tables.{joins, row_at};
ghost use Rattle.recipe.specs.Recipes.{program};
ghost use Rattle.inquiry.specs.Inquiries.{scene_of, FirstFrom};

use crate::Inquiry;
use crate::placed::Placed;
use crate::scene::Scene;
use model::Fact;
use recipe::Kind;
use rules::{AccessRule, Watch};

impl<R: AccessRule, W: Watch> Scene<'_, R, W> {
    // Whether a node is a return.
    fn returns(&self, node: u32) -> bool
        ensures { result ≡ returns_at (program self.now.on.now.recipe.now) node }
    {
        node < self.on.recipe.nodes() && self.on.recipe.node_at(node).kind.is_return()
    }

    // Whether a call fact and a return fact go together: the call gives the start of the other.
    fn joins(&self, call: Fact, back: Fact) -> bool
        ensures { result ≡ joins (scene_of R.meaning W.watching self.now) call back }
    {
        let recipe = self.on.recipe;
        let Kind::Call { callee, .. } = recipe.node_at(call.node).kind else {
            return false;
        };
        self.returns(back.node)
            && self.on.step_to(call.state, back.entry) == back.seen
            && recipe.is_entry_of(callee, back.entry)
            && self
                .on
                .rule
                .enter(recipe, call.value, call.node, back.entry)
                == back.brought
    }
}

impl Inquiry<'_> {
    // Two look-ups, one from each side, and not one with a closure for the order of the pair: a faster way to find a return is not one to find a call.

    // The place of the next return fact before a call, if any, that goes together with it.
    pub(crate) fn next_return<R: AccessRule, W: Watch>(
        &self,
        scene: &Scene<R, W>,
        from: usize,
        call: Placed,
    ) -> Option<usize>
        requires { call.at ≤ self.now.held }
        ensures { FirstFrom (λ j. joins (scene_of R.meaning W.watching scene.now) call.fact (row_at self.now.facts.now j)) from call.at result }
    {
        (from..call.at).find(|at| scene.joins(call.fact, self.facts[*at]))
    }

    // The place of the next call fact before a return, if any, that goes together with it.
    pub(crate) fn next_call<R: AccessRule, W: Watch>(
        &self,
        scene: &Scene<R, W>,
        from: usize,
        back: Placed,
    ) -> Option<usize>
        requires { back.at ≤ self.now.held }
        ensures { FirstFrom (λ j. joins (scene_of R.meaning W.watching scene.now) (row_at self.now.facts.now j) back.fact) from back.at result }
    {
        (from..back.at).find(|at| scene.joins(self.facts[*at], back.fact))
    }
}
