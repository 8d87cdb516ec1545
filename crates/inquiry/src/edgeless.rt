// Works facts that go along no edge, for which no targets have to be laid.
ghost use Rattle.std.specs.Prelude.{◌≡◌, ◌<◌, true, false};
ghost use Rattle.model.specs.Facts.{kind_at};
ghost use Rattle.model.specs.Tables.{offer_all, offers_by, end_of, work};
ghost use Rattle.inquiry.specs.Inquiries.{state_of, IsRow, Grown, scene_of};

use crate::Inquiry;
use crate::placed::Placed;
use crate::scene::Scene;
use recipe::Kind;
use rules::{AccessRule, Watch};

impl Inquiry<'_> {
    // Offers what the rules make of a fact that goes along no edge, and tells whether it is one: a check that is not passed, or a call or a return that comes back nowhere. At any other fact it changes nothing.
    fn apply_edgeless<R: AccessRule, W: Watch>(&mut self, scene: &Scene<R, W>, own: Placed) -> bool
        requires { IsRow self.old own }
        ensures yes { result ≡ true → state_of self.new ≡ offer_all self.old.places (state_of self.old) (offers_by (scene_of R.meaning W.watching scene.now) (state_of self.old).rows own.at own.fact (kind_at (scene_of R.meaning W.watching scene.now) (end_of own.fact))) }
        ensures no { result ≡ false → self.new ≡ self.old }
        ensures grown { Grown self.old self.new }
    {
        let recipe = scene.on.recipe;
        match recipe.node_at(own.fact.node).kind {
            Kind::Nop => false,
            Kind::Check { .. } => !scene.on.rule.pass(recipe, own.fact.value, own.fact.node),
            Kind::Call { callee, .. } => match self.next_return(scene, 0, own) {
                Some(_) => false,
                None => {
                    self.enter(scene, own, callee);
                    true
                }
            },
            Kind::Return => match self.next_call(scene, 0, own) {
                Some(_) => false,
                None => true,
            },
        }
    }

    // Works the first unworked fact if it goes along no edge, and tells whether it did.
    pub(crate) fn work_edgeless<R: AccessRule, W: Watch>(&mut self, scene: &Scene<R, W>) -> bool
        requires { self.old.worked < self.old.held }
        ensures yes { result ≡ true → state_of self.new ≡ work (scene_of R.meaning W.watching scene.now) self.old.places (state_of self.old) }
        ensures no { result ≡ false → self.new ≡ self.old }
        ensures grown { Grown self.old self.new }
    {
        let at = self.worked;
        let fact = self.facts[at];
        if !self.apply_edgeless(scene, Placed { at, fact }) {
            return false;
        }
        if !self.full {
            self.worked = at + 1;
        }
        true
    }
}
