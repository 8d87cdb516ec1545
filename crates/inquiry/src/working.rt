// Works a fact: what each of the rules makes of it is offered to the table.
ghost use Rattle.std.specs.Prelude.{◌≡◌, ◌<◌};
ghost use Rattle.model.specs.Facts.{kind_at};
ghost use Rattle.model.specs.Tables.{offer_all, follows, enters, backs, each_from, return_at, call_at, offers_by, end_of, work, dug, firsts};
ghost use Rattle.recipe.specs.Recipes.{own_edges};
ghost use Rattle.rules.specs.Subjects.{setting_of};
ghost use Rattle.inquiry.specs.Inquiries.{state_of, IsRow, Grown, scene_of};

use crate::Inquiry;
use crate::placed::Placed;
use crate::rows::first_row;
use crate::scene::Scene;
use recipe::Kind;
use rules::{AccessRule, Subject, Watch};

impl Inquiry<'_> {
    // Rule 2: along each edge of a fact's node.
    fn follow<R: AccessRule, W: Watch>(&mut self, scene: &Scene<R, W>, from: Placed)
        requires { IsRow self.old from }
        ensures state { state_of self.new ≡ offer_all self.old.places (state_of self.old) (follows (scene_of R.meaning W.watching scene.now) from.at from.fact) }
        ensures grown { Grown self.old self.new }
    {
        self.offer_each(
            scene
                .targets(from.fact.node)
                .map(|to| scene.follow_row(from, to)),
        );
    }

    // Rule 3: into each entry of the callee.
    pub(crate) fn enter<R: AccessRule, W: Watch>(
        &mut self,
        scene: &Scene<R, W>,
        call: Placed,
        callee: u32,
    )
        requires { IsRow self.old call }
        ensures state { state_of self.new ≡ offer_all self.old.places (state_of self.old) (enters (scene_of R.meaning W.watching scene.now) callee call.at call.fact) }
        ensures grown { Grown self.old self.new }
    {
        let recipe = scene.on.recipe;
        self.offer_each(
            (0..recipe.nodes())
                .filter(|node| recipe.is_entry_of(callee, *node))
                .map(|entry| scene.enter_row(call, entry)),
        );
    }

    // Rule 4: from a call whose callee returned, along each edge of the call.
    fn come_back<R: AccessRule, W: Watch>(
        &mut self,
        scene: &Scene<R, W>,
        call: Placed,
        back: Placed,
    )
        requires call { IsRow self.old call }
        requires back { IsRow self.old back }
        ensures state { state_of self.new ≡ offer_all self.old.places (state_of self.old) (backs (scene_of R.meaning W.watching scene.now) call.at call.fact back.at back.fact) }
        ensures grown { Grown self.old self.new }
    {
        self.offer_each(
            scene
                .targets(call.fact.node)
                .map(|to| scene.back_row(call, back, to)),
        );
    }

    // The two halves of rule 4 are loops of their own: one over both would take the look-up and the order of the pair as closures, and be no plainer.
    // Each goes on from the place that was found: the table grows meanwhile, so no iterator over it can be held.

    // Rule 4 at a call: with each earlier return fact that goes together with it.
    fn join_returns<R: AccessRule, W: Watch>(&mut self, scene: &Scene<R, W>, call: Placed)
        requires { IsRow self.old call }
        ensures state { state_of self.new ≡ offer_all self.old.places (state_of self.old) (each_from 0 call.at (return_at (scene_of R.meaning W.watching scene.now) (state_of self.old).rows call.at call.fact)) }
        ensures grown { Grown self.old self.new }
    {
        let mut from = 0;
        while let Some(at) = self.next_return(scene, from, call) {
            let fact = self.facts[at];
            self.come_back(scene, call, Placed { at, fact });
            from = at + 1;
        }
    }

    // Rule 4 at a return: with each earlier call fact that goes together with it.
    fn join_calls<R: AccessRule, W: Watch>(&mut self, scene: &Scene<R, W>, back: Placed)
        requires { IsRow self.old back }
        ensures state { state_of self.new ≡ offer_all self.old.places (state_of self.old) (each_from 0 back.at (call_at (scene_of R.meaning W.watching scene.now) (state_of self.old).rows back.at back.fact)) }
        ensures grown { Grown self.old self.new }
    {
        let mut from = 0;
        while let Some(at) = self.next_call(scene, from, back) {
            let fact = self.facts[at];
            self.come_back(scene, Placed { at, fact }, back);
            from = at + 1;
        }
    }

    // Offers what the rules make of a fact, as its node's kind has it.
    fn apply<R: AccessRule, W: Watch>(&mut self, scene: &Scene<R, W>, own: Placed)
        requires { IsRow self.old own }
        ensures state { state_of self.new ≡ offer_all self.old.places (state_of self.old) (offers_by (scene_of R.meaning W.watching scene.now) (state_of self.old).rows own.at own.fact (kind_at (scene_of R.meaning W.watching scene.now) (end_of own.fact))) }
        ensures grown { Grown self.old self.new }
    {
        match scene.on.recipe.node_at(own.fact.node).kind {
            Kind::Nop => self.follow(scene, own),
            Kind::Check { .. } => {
                if scene
                    .on
                    .rule
                    .pass(scene.on.recipe, own.fact.value, own.fact.node)
                {
                    self.follow(scene, own);
                }
            }
            Kind::Call { callee, .. } => {
                self.enter(scene, own, callee);
                self.join_returns(scene, own);
            }
            Kind::Return => self.join_calls(scene, own),
        }
    }

    // Works the first unworked fact, and counts it as worked unless the table turned full.
    pub(crate) fn work<R: AccessRule, W: Watch>(&mut self, scene: &Scene<R, W>)
        requires { self.old.worked < self.old.held }
        ensures state { state_of self.new ≡ work (scene_of R.meaning W.watching scene.now) self.old.places (state_of self.old) }
        ensures grown { Grown self.old self.new }
    {
        let at = self.worked;
        let fact = self.facts[at];
        self.apply(scene, Placed { at, fact });
        if !self.full {
            self.worked = at + 1;
        }
    }

    // Works up to so many facts, in table order.
    pub(crate) fn work_up_to<R: AccessRule, W: Watch>(&mut self, scene: &Scene<R, W>, allowed: u32)
        ensures state { state_of self.new ≡ dug (scene_of R.meaning W.watching scene.now) self.old.places allowed (state_of self.old) }
        ensures grown { Grown self.old self.new }
    {
        for _turn in 0..allowed {
            if self.full || self.worked == self.held {
                return;
            }
            self.work(scene);
        }
    }

    // Rule 1: each entry of main.
    pub(crate) fn begin<R: AccessRule, W: Watch>(&mut self, on: &Subject<R, W>)
        ensures state { state_of self.new ≡ offer_all self.old.places (state_of self.old) (firsts (setting_of R.meaning W.watching on.now (own_edges on.now.recipe.now))) }
        ensures grown { Grown self.old self.new }
    {
        let recipe = on.recipe;
        self.offer_each(
            (0..recipe.nodes())
                .filter(|node| recipe.is_entry_of(0, *node))
                .map(|entry| first_row(on, entry)),
        );
    }
}
