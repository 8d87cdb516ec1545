// The edges of a node.
ghost use Rattle.std.specs.Prelude.{◌≡◌};
ghost use Rattle.model.specs.Program.{counted};
ghost use Rattle.model.specs.Tables.{targets};
ghost use Rattle.recipe.specs.Recipes.{program};
ghost use Rattle.inquiry.specs.Inquiries.{left_sought, left_targets};

use crate::laying::{NO_PART, Part};
use crate::scene::Scene;
use recipe::Counted;
use rules::{AccessRule, Watch};
use std::slice;

// The nodes to which the edges of a node lead, sought among all edges that count.
#[derive(Drop)]
pub(crate) struct Sought<'s> {
    edges: Counted<'s>,
    node: u32,
}

impl Iterator for Sought<'_> {
    type Item = u32;

    ghost use Rattle.std.specs.Iterator.{YieldsFirst, item_count};

    ghost next_gives = { YieldsFirst left_sought };

    ghost remaining = { item_count left_sought };

    fn next(&mut self) -> Option<u32> {
        let node = self.node;
        let edge = self.edges.find(|edge| edge.from == node)?;
        Some(edge.to)
    }
}

// The nodes to which the edges of a node lead, one after another: as they are laid, or sought where they are not.
#[derive(Drop)]
pub(crate) enum Targets<'s> {
    Laid(slice::Iter<'s, u32>),
    Sought(Sought<'s>),
}

impl Iterator for Targets<'_> {
    type Item = u32;

    ghost use Rattle.std.specs.Iterator.{YieldsFirst, item_count};

    ghost next_gives = { YieldsFirst left_targets };

    ghost remaining = { item_count left_targets };

    fn next(&mut self) -> Option<u32> {
        match self {
            Targets::Laid(laid) => laid.next().copied(),
            Targets::Sought(sought) => sought.next(),
        }
    }
}

impl<R: AccessRule, W: Watch> Scene<'_, R, W> {
    // Where the edges of a node lead that count.
    pub(crate) fn targets(&self, node: u32) -> Targets<'_>
        ensures { left_targets result ≡ targets (counted (program self.now.on.now.recipe.now) self.now.edges.now) node }
    {
        let Some(laid) = self.laid else {
            return Targets::Sought(Sought {
                edges: self.on.recipe.counted(self.edges),
                node,
            });
        };
        let Part { first, end } = *laid.parts.get(node as usize).unwrap_or(&NO_PART);
        Targets::Laid(laid.targets[first..end].iter())
    }
}
