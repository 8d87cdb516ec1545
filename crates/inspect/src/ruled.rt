// An entry of each method.
ghost use Rattle.std.specs.Prelude.{◌≡◌, ℕ, ◌<◌, true, length, IfOk, slice_index};
ghost use Rattle.model.specs.Program.{is_entry_of};
ghost use Rattle.recipe.specs.Recipes.{program};

use recipe::Recipe;
use std::alloc::{AllocError, Global};

// The first entry of each method, in the order of the methods: nodes come in that order, and each method has an entry.
pub(crate) fn first_entries(heap: Global, recipe: &Recipe) -> Result<Vec<u32>, AllocError>
    ensures { IfOk result (λ entries. (k : ℕ) → k < length entries.items → is_entry_of (program recipe.now) k (slice_index entries.items k) ≡ true) }
{
    let mut entries = Vec::new(heap);
    // No chain: whether a node is taken hangs on how many were.
    for n in 0..recipe.nodes() {
        if recipe.is_entry_of(entries.len() as u32, n) {
            entries.push(n)?;
        }
    }
    Ok(entries)
}
