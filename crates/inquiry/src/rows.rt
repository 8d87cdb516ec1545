// The rows that the four rules make.
ghost use Rattle.std.specs.Prelude.{◌≡◌};
ghost use Rattle.model.specs.Tables.{row, first_row, follow_row, enter_row, back_row};
ghost use Rattle.recipe.specs.Recipes.{own_edges};
ghost use Rattle.rules.specs.Subjects.{setting_of};
ghost use Rattle.inquiry.specs.Inquiries.{scene_of};

use crate::placed::Placed;
use crate::scene::Scene;
use model::{Fact, Point};
use rules::{AccessRule, Subject, Watch};

// A call that begins here, by a rule and from a source.
fn begun(at: Point, rule: u32, source: u32) -> Fact
    ensures { result ≡ row at at rule source 0 1 }
{
    Fact {
        entry: at.node,
        brought: at.value,
        seen: at.state,
        node: at.node,
        value: at.value,
        state: at.state,
        rule,
        source,
        returned: 0,
        span: 1,
    }
}

// Rule 1: an entry of main. It looks at no edge, so it needs no scene.
pub(crate) fn first_row<R: AccessRule, W: Watch>(on: &Subject<R, W>, entry: u32) -> Fact
    ensures { result ≡ first_row (setting_of R.meaning W.watching on.now (own_edges on.now.recipe.now)) entry }
{
    let at = Point {
        node: entry,
        value: on.rule.first(on.recipe, entry),
        state: on.step_to(on.watch.start(), entry),
    };
    begun(at, 1, 0)
}

impl<R: AccessRule, W: Watch> Scene<'_, R, W> {
    // Rule 2: along an edge, with the same value.
    pub(crate) fn follow_row(&self, from: Placed, to: u32) -> Fact
        ensures { result ≡ follow_row (scene_of R.meaning W.watching self.now) from.at from.fact to }
    {
        Fact {
            node: to,
            state: self.on.step_to(from.fact.state, to),
            rule: 2,
            source: from.number(),
            returned: 0,
            span: from.fact.span.saturating_add(1),
            ..from.fact
        }
    }

    // Rule 3: from a call into an entry of its callee.
    pub(crate) fn enter_row(&self, call: Placed, entry: u32) -> Fact
        ensures { result ≡ enter_row (scene_of R.meaning W.watching self.now) call.at call.fact entry }
    {
        let Point { node, value, state } = call.fact.end();
        let at = Point {
            node: entry,
            value: self.on.rule.enter(self.on.recipe, value, node, entry),
            state: self.on.step_to(state, entry),
        };
        begun(at, 3, call.number())
    }

    // Rule 4: from a call whose callee returned, along an edge of the call.
    pub(crate) fn back_row(&self, call: Placed, back: Placed, to: u32) -> Fact
        ensures { result ≡ back_row (scene_of R.meaning W.watching self.now) call.at call.fact back.at back.fact to }
    {
        let value = self.on.rule.back(
            self.on.recipe,
            call.fact.value,
            call.fact.node,
            back.fact.value,
            back.fact.node,
        );
        Fact {
            node: to,
            value,
            state: self.on.step_to(back.fact.state, to),
            rule: 4,
            source: call.number(),
            returned: back.number(),
            span: call
                .fact
                .span
                .saturating_add(back.fact.span)
                .saturating_add(1),
            ..call.fact
        }
    }
}
