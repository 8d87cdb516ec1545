// Looks for an edge among those of a list that count.
ghost use Rattle.std.specs.Prelude.{◌≡◌};
ghost use Rattle.recipe.specs.Recipes.{program};
ghost use Rattle.recipe.specs.Writing.{listed_edges};
ghost use Rattle.walker.specs.Walking.{has_edge};

use recipe::{Edge, Recipe};

// Whether an edge that counts leads from one node to another.
pub(crate) fn has_edge(recipe: &Recipe, edges: &[Edge], from: u32, to: u32) -> bool
    ensures { result ≡ has_edge (listed_edges (program recipe.now) edges.now) from to }
{
    recipe.counted(edges).any(|e| e == Edge { from, to })
}
