// History-based access control: what a run still may do depends on every method that it has gone through.
ghost use Rattle.model.specs.Access.{history};

use crate::AccessRule;
use crate::asking::{is_return_of, rights, set_first, set_pass};
use recipe::{Kind, Recipe};

// The history rule.
#[derive(Clone, Copy)]
pub struct History;

impl AccessRule for History {
    ghost meaning = { λ _ p. history p };

    fn values(&self, _recipe: &Recipe) -> u32 {
        65536
    }

    fn first(&self, recipe: &Recipe, entry: u32) -> u32 {
        set_first(recipe, entry)
    }

    fn enter(&self, recipe: &Recipe, value: u32, call: u32, entry: u32) -> u32 {
        let Kind::Call { callee, grant, .. } = recipe.node_at(call).kind else {
            return 0;
        };
        if value >= 65536 || !recipe.is_entry_of(callee, entry) {
            return 0;
        }
        (value | grant) & rights(recipe, callee)
    }

    fn pass(&self, recipe: &Recipe, value: u32, check: u32) -> bool {
        set_pass(recipe, value, check)
    }

    fn back(&self, recipe: &Recipe, value: u32, call: u32, returned: u32, at: u32) -> u32 {
        let Kind::Call { callee, accept, .. } = recipe.node_at(call).kind else {
            return 0;
        };
        if value >= 65536 || returned >= 65536 || !is_return_of(recipe, callee, at) {
            return 0;
        }
        value & (returned | accept)
    }
}
