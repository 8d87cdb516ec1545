// The line that tells of a step.
ghost use Rattle.std.specs.Prelude.{◌≡◌, ◌++◌, OnOk};
ghost use Rattle.std.specs.String.{string_bytes};
ghost use Rattle.recipe.specs.Recipes.{program};
ghost use Rattle.following.specs.Told.{step_text, end_text};

use recipe::{Recipe, Refusal};
use showing::Held;
use std::alloc::AllocError;
use walker::Stand;

// Puts a line behind a text: where the run stands that went to a node, or that the node, at a place of the list, is refused.
pub(crate) fn tell(
    text: &mut String,
    recipe: &Recipe,
    step: Result<Stand, Refusal>,
    node: u32,
    place: usize,
) -> Result<(), AllocError>
    ensures { OnOk result
        (string_bytes text.new ≡ string_bytes text.old ++ step_text (program recipe.now) step node place) }
{
    match step {
        Ok(at) => {
            let Stand {
                depth,
                value,
                state,
                bad,
            } = at;
            let method = recipe.method_of(node).unwrap_or(0);
            let rights = Held(value);
            let bad = if bad { ", bad" } else { "" };
            writeln!(
                text,
                "depth {depth}, node {node} of method {method}: {rights}; watch in state {state}{bad}"
            )
        }
        Err(refusal) => {
            let number = refusal.number();
            write!(
                text,
                "refused {number} {place}: node {node} at place {place} is no step from where the run stands"
            )
        }
    }
}

// Puts behind a text how a walk ended that was accepted; of one that was refused nothing more is said.
pub(crate) fn tell_end(text: &mut String, step: Result<Stand, Refusal>) -> Result<(), AllocError>
    ensures { OnOk result (string_bytes text.new ≡ string_bytes text.old ++ end_text step) }
{
    let Ok(at) = step else {
        return Ok(());
    };
    text.push_str(if at.bad {
        "accepted: a bad run"
    } else {
        "accepted: a run, and not a bad one"
    })
}
