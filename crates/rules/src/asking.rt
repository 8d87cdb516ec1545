// What both rules ask of the recipe.
ghost use Rattle.std.specs.Prelude.{◌≡◌, ℕ, ◌<◌};
ghost use Rattle.model.specs.Access.{set_first, set_pass};
ghost use Rattle.model.specs.Program.{method_at, rights_of, is_return_of};
ghost use Rattle.recipe.specs.Recipes.{program};

use recipe::{Kind, Recipe};

// The rights of a method; none if there is no such method.
pub(crate) fn rights(recipe: &Recipe, method: u32) -> u32
    ensures answer { result ≡ (method_at (program recipe.now) method).rights }
    ensures below { result < 65536 }
{
    recipe.method(method).map_or(0, |m| m.rights)
}

// Whether n is a return of a method.
pub(crate) fn is_return_of(recipe: &Recipe, method: u32, n: u32) -> bool
    ensures { result ≡ is_return_of (program recipe.now) method n }
{
    recipe.node_at(n).kind.is_return() && recipe.method_of(n) == Some(method)
}

// Main's rights at an entry of main.
pub(crate) fn set_first(recipe: &Recipe, entry: u32) -> u32
    ensures answer { result ≡ set_first (program recipe.now) entry }
    ensures below { result < 65536 }
{
    if recipe.is_entry_of(0, entry) {
        rights(recipe, 0)
    } else {
        0
    }
}

// Whether the rights that a check requires lie within the set.
pub(crate) fn set_pass(recipe: &Recipe, set: u32, check: u32) -> bool
    ensures { result ≡ set_pass (program recipe.now) set check }
{
    let Kind::Check { required } = recipe.node_at(check).kind else {
        return false;
    };
    set < 65536 && required & set == required
}

// The rights of the method of a node.
pub(crate) fn own_rights(recipe: &Recipe, n: u32) -> u32
    ensures answer { result ≡ rights_of (program recipe.now) n }
    ensures below { result < 65536 }
{
    // no `map_or`: the proof did not close, which did not find what the closure says of the call in it
    match recipe.method_of(n) {
        Some(home) => rights(recipe, home),
        None => 0,
    }
}
