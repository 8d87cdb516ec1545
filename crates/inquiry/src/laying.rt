// Lays the targets of edges side by side, by the node that the edges leave.
ghost use Rattle.std.specs.Prelude.{◌≡◌, ℕ, ◌≤◌, length};
ghost use Rattle.model.specs.Program.{counted};
ghost use Rattle.recipe.specs.Recipes.{program};
ghost use Rattle.inquiry.specs.Sides.{no_part, part_at, Fits, LaidBy};

use recipe::{Edge, Recipe};

// Where the targets of one node stand among those of all: from a first place on, before an end.
#[derive(Clone, Copy)]
pub(crate) struct Part {
    pub first: usize,
    pub end: usize,
}

// What a node without edges has.
pub(crate) const NO_PART: Part = Part { first: 0, end: 0 };

// The targets of edges, and where those of each node stand.
// A dig lays them once, so that a worked fact costs the edges of its own node alone. It takes no heap: a recipe has at most 1,024 nodes, and an edge table 4,096 places.
#[derive(Drop)]
pub(crate) struct Laid {
    pub parts: [Part; 1024],
    pub targets: [u32; 4096],
    ghost fits: { (n : ℕ) → Fits 4096 (part_at parts n) },
}

// No node has edges yet.
fn no_parts() -> [Part; 1024]
    ensures { (n : ℕ) → part_at result n ≡ no_part }
{
    let mut parts = [NO_PART; 1024];
    // set once more, since a proof has no name for what an array is made with
    for part in parts.iter_mut() {
        *part = NO_PART;
    }
    parts
}

// Lays the targets of those of some edges that count. They rise by the node that they leave, so one node's stand side by side.
pub(crate) fn lay(recipe: &Recipe, edges: &[Edge]) -> Laid
    requires { length edges.now ≤ 4096 }
    ensures { LaidBy (counted (program recipe.now) edges.now) result.parts result.targets }
{
    let mut parts = no_parts();
    let mut targets = [0; 4096];
    for (place, edge) in recipe.counted(edges).enumerate() {
        let from = edge.from as usize;
        let part = parts[from];
        let first = if part.end == 0 { place } else { part.first };
        parts[from] = Part {
            first,
            end: place + 1,
        };
        targets[place] = edge.to;
    }
    Laid { parts, targets }
}
