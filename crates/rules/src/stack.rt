// Stack inspection: what a run may do depends on the methods that are on its stack.
ghost use Rattle.model.specs.Access.{stack_inspection};

use crate::AccessRule;
use crate::asking::{is_return_of, own_rights, rights, set_first, set_pass};
use recipe::{Kind, Recipe};

// The rule of stack inspection.
#[derive(Clone, Copy)]
pub struct StackInspection;

impl AccessRule for StackInspection {
    ghost meaning = { λ _ p. stack_inspection p };

    fn values(&self, _recipe: &Recipe) -> u32 {
        65536
    }

    fn first(&self, recipe: &Recipe, entry: u32) -> u32 {
        set_first(recipe, entry)
    }

    fn enter(&self, recipe: &Recipe, value: u32, call: u32, entry: u32) -> u32 {
        let Kind::Call {
            callee,
            privileged,
            ..
        } = recipe.node_at(call).kind
        else {
            return 0;
        };
        if value >= 65536 || !recipe.is_entry_of(callee, entry) {
            return 0;
        }
        let held = if privileged {
            own_rights(recipe, call)
        } else {
            value
        };
        held & rights(recipe, callee)
    }

    fn pass(&self, recipe: &Recipe, value: u32, check: u32) -> bool {
        set_pass(recipe, value, check)
    }

    fn back(&self, recipe: &Recipe, value: u32, call: u32, returned: u32, at: u32) -> u32 {
        let Kind::Call { callee, .. } = recipe.node_at(call).kind else {
            return 0;
        };
        if value >= 65536 || returned >= 65536 || !is_return_of(recipe, callee, at) {
            return 0;
        }
        value
    }
}
