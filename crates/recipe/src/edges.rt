// The edges of a recipe, one after another: those of its file, and those of a list that count.
ghost use Rattle.std.specs.Prelude.{◌≡◌};
ghost use Rattle.recipe.specs.Recipes.{program, own_edges};
ghost use Rattle.recipe.specs.Writing.{listed_edges};
ghost use Rattle.recipe.specs.Sequences.{left_in_file, left_in_list};

use crate::{Recipe, first_places};
use model::Edge;
use std::slice;

// The edges of a recipe's file, from a place on; no adapter over a range of places, since `own_edges` could not name the closure in its answer.
#[derive(Drop)]
pub struct OwnEdges<'r> {
    recipe: &'r Recipe<'r>,
    at: u32,
}

impl Iterator for OwnEdges<'_> {
    type Item = Edge;

    ghost use Rattle.std.specs.Iterator.{YieldsFirst, item_count};

    ghost next_gives = { YieldsFirst left_in_file };

    ghost remaining = { item_count left_in_file };

    fn next(&mut self) -> Option<Edge> {
        let edge = self.recipe.edge(self.at)?;
        self.at += 1;
        Some(edge)
    }
}

// The edges of a list that count, of those that are left to look at; the last one that did came before them.
#[derive(Drop)]
pub struct Counted<'r> {
    recipe: &'r Recipe<'r>,
    last: Option<Edge>,
    edges: slice::Iter<'r, Edge>,
}

impl Iterator for Counted<'_> {
    type Item = Edge;

    ghost use Rattle.std.specs.Iterator.{YieldsFirst, item_count};

    ghost next_gives = { YieldsFirst left_in_list };

    ghost remaining = { item_count left_in_list };

    fn next(&mut self) -> Option<Edge> {
        let (recipe, last) = (self.recipe, self.last);
        let edge = *self.edges.find(|edge| recipe.counts(last, **edge))?;
        self.last = Some(edge);
        Some(edge)
    }
}

impl Recipe<'_> {
    // The edges of the file, in their order.
    pub fn own_edges(&self) -> OwnEdges<'_>
        ensures { left_in_file result ≡ own_edges self.now }
    {
        OwnEdges {
            recipe: self,
            at: 0,
        }
    }

    // The edges of a list that count, in their order, the first 4,096 places of it being read.
    pub fn counted<'r>(&'r self, edges: &'r [Edge]) -> Counted<'r>
        ensures { left_in_list result ≡ listed_edges (program self.now) edges.now }
    {
        Counted {
            recipe: self,
            last: None,
            edges: first_places(edges).iter(),
        }
    }
}
