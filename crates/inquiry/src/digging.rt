// Digs for facts.
ghost use Rattle.std.specs.Prelude.{◌≡◌, ℕ, ◌<◌, ◌≤◌, true, false, length};
ghost use Rattle.model.specs.Searches.{Sound};
ghost use Rattle.model.specs.Tables.{work, dug};
ghost use Rattle.rules.specs.Subjects.{setting_of};
ghost use Rattle.inquiry.specs.Calls.{answered, unless, in_use, dig_answer, dug_from};
ghost use Rattle.inquiry.specs.declared.requests.Reply.TheVariants.{Dug as DigDone};
ghost use Rattle.inquiry.specs.declared.requests.Request.TheVariants.{Dig};
ghost use Rattle.inquiry.specs.Histories.{opened_on};
ghost use Rattle.inquiry.specs.Inquiries.{state_of, scene_of, Grown};
ghost use Rattle.inquiry.specs.Reached.{IsNext};

use crate::fitting::counts_fit;
use crate::laying::lay;
use crate::scene::Scene;
use crate::{Counts, Dug, Inquiry};
use recipe::{Edge, Kind, Refusal};
use rules::{AccessRule, Subject, Watch};

// So few facts, along so few edges, cost less than it costs to lay the targets.
const FEW_FACTS: u32 = 16;

const FEW_EDGES: usize = 16;

impl Inquiry<'_> {
    // Whether a dig may begin: the tables fitted at the opening, and the counts are not too great and those of the opening.
    pub(crate) fn may_dig<R: AccessRule, W: Watch>(
        &self,
        on: &Subject<R, W>,
        edges: &[Edge],
    ) -> Result<(), Refusal>
        ensures { result ≡ dig_answer self.now (setting_of R.meaning W.watching on.now edges.now) (length edges.now) }
    {
        self.fits?;
        let counts = Counts::of(on, edges.len());
        if !counts_fit(counts.values, counts.states) {
            return Err(Refusal::TooMany);
        }
        if counts != self.opening.counts {
            return Err(Refusal::OtherCounts);
        }
        Ok(())
    }

    // Whether the next fact goes through the edges once at most: so it is at a nop and a check, and from a call or a return it may come back many times.
    fn seeks_once<R: AccessRule, W: Watch>(&self, on: &Subject<R, W>) -> bool
        requires { self.now.worked < self.now.held }
    {
        let node = self.facts[self.worked].node;
        matches!(on.recipe.node_at(node).kind, Kind::Nop | Kind::Check { .. })
    }

    // Works the next fact with no targets laid, where it does not pay to lay them: it goes along no edge, or it is the last one allowed and goes through the edges once, or it is one of a few along few edges. Tells whether it did; else nothing has changed.
    fn work_unlaid<R: AccessRule, W: Watch>(
        &mut self,
        scene: &Scene<R, W>,
        turn: u32,
        left: u32,
    ) -> bool
        requires { self.old.worked < self.old.held }
        ensures yes { result ≡ true → state_of self.new ≡ work (scene_of R.meaning W.watching scene.now) self.old.places (state_of self.old) }
        ensures no { result ≡ false → self.new ≡ self.old }
        ensures grown { Grown self.old self.new }
    {
        if turn < FEW_FACTS && scene.edges.len() <= FEW_EDGES {
            self.work(scene);
            return true;
        }
        if self.work_edgeless(scene) {
            return true;
        }
        if left > 1 || !self.seeks_once(scene.on) {
            return false;
        }
        self.work(scene);
        true
    }

    // Works facts as long as it does not pay to lay targets for them. Tells how many are still allowed then; none where no fact is left to work.
    fn work_until_laid<R: AccessRule, W: Watch>(&mut self, scene: &Scene<R, W>, allowed: u32) -> u32
        ensures state { let X = scene_of R.meaning W.watching scene.now in dug X self.old.places result (state_of self.new) ≡ dug X self.old.places allowed (state_of self.old) }
        ensures grown { Grown self.old self.new }
    {
        for turn in 0..allowed {
            if self.full || self.worked == self.held {
                return 0;
            }
            let left = allowed - turn;
            if !self.work_unlaid(scene, turn, left) {
                return left;
            }
        }
        0
    }

    // Lays the targets of edges, and works up to so many facts along them.
    fn work_laid<'s, R: AccessRule, W: Watch>(
        &mut self,
        on: &'s Subject<'s, R, W>,
        edges: &'s [Edge],
        allowed: u32,
    )
        requires { length edges.now ≤ 4096 }
        ensures state { state_of self.new ≡ dug (setting_of R.meaning W.watching on.now edges.now) self.old.places allowed (state_of self.old) }
        ensures grown { Grown self.old self.new }
    {
        let laid = &lay(on.recipe, edges);
        let scene = Scene {
            on,
            edges,
            laid: Some(laid),
        };
        self.work_up_to(&scene, allowed);
    }

    // Works up to so many facts along edges, whose targets are laid once that pays: a dig with nothing to do does not lay them.
    fn work_along<'s, R: AccessRule, W: Watch>(
        &mut self,
        on: &'s Subject<'s, R, W>,
        edges: &'s [Edge],
        allowed: u32,
    )
        requires { length edges.now ≤ 4096 }
        ensures state { state_of self.new ≡ dug (setting_of R.meaning W.watching on.now edges.now) self.old.places allowed (state_of self.old) }
        ensures grown { Grown self.old self.new }
    {
        let scene = Scene {
            on,
            edges,
            laid: None,
        };
        let left = self.work_until_laid(&scene, allowed);
        if left > 0 {
            self.work_laid(on, edges, left);
        }
    }

    // Works the next facts of the table, at most so many, in their order. Tells the number that were finished, and that of all held.
    pub fn dig<R: AccessRule, W: Watch>(
        &mut self,
        on: &Subject<R, W>,
        edges: &[Edge],
        allowed: u32,
    ) -> Result<Dug, Refusal>
        ensures answer { let X = setting_of R.meaning W.watching on.now (in_use self.old edges.now) in result ≡ answered (dig_answer self.old X (length edges.now)) (dug_from (state_of self.old) (dug X self.old.places allowed (state_of self.old))) }
        ensures state { let X = setting_of R.meaning W.watching on.now (in_use self.old edges.now) in state_of self.new ≡ unless (dig_answer self.old X (length edges.now)) (dug X self.old.places allowed (state_of self.old)) (state_of self.old) }
        ensures grown { Grown self.old self.new }
        ensures sound { let X = setting_of R.meaning W.watching on.now (in_use self.old edges.now) in Sound X self.old.places (state_of self.old) → Sound X self.old.places (state_of self.new) }
        ensures history { (places edge_places : ℕ) → IsNext (opened_on R.meaning W.watching on.now places edge_places) (Dig allowed) DigDone self.old edges.now self.new edges.now result }
    {
        self.may_dig(on, edges)?;
        let before = self.worked;
        let edges = &edges[..self.opening.used];
        self.work_along(on, edges, allowed);
        Ok(Dug {
            finished: (self.worked - before) as u32,
            held: self.held as u32,
        })
    }
}
