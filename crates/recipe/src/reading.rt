// Answers from a recipe's program, by number. A number past the end gets None, or no.
// Each is an `if` and no `then`, in whose closure it is not known that the number is below the count.
ghost use Rattle.std.specs.Prelude.{◌≡◌, ◌<◌, ◌≤◌, length};
ghost use Rattle.std.specs.List.{slice_get};
ghost use Rattle.model.specs.Program.{node_at, home, is_edge, counts, is_entry_of};
ghost use Rattle.recipe.specs.Recipes.{program, own_edges, method_of, cell_of};

use crate::Recipe;
use crate::checking::rises_after;
use crate::records::NO_NODE;
use crate::spans::{Divided, Span};
use model::{Edge, Method, Node};

impl Recipe<'_> {
    // How many methods there are.
    pub fn methods(&self) -> u32
        ensures { result ≡ length (program self.now).methods }
    {
        self.layout.contents.methods.count.into()
    }

    // How many nodes there are.
    pub fn nodes(&self) -> u32
        ensures { result ≡ length (program self.now).nodes }
    {
        self.layout.contents.nodes.count.into()
    }

    // How many edges the file has.
    pub fn edges(&self) -> u32
        ensures { result ≡ length (own_edges self.now) }
    {
        self.layout.contents.edges.count.into()
    }

    // How many rows there are.
    pub fn rows(&self) -> u32
        ensures { result ≡ length (program self.now).rows }
    {
        self.layout.contents.rows.count.into()
    }

    pub fn method(&self, k: u32) -> Option<Method>
        ensures { result ≡ slice_get (program self.now).methods k }
    {
        if k < self.methods() {
            Some(self.layout.method(k as usize))
        } else {
            None
        }
    }

    pub fn node(&self, n: u32) -> Option<Node>
        ensures { result ≡ slice_get (program self.now).nodes n }
    {
        if n < self.nodes() {
            self.layout.node(n as usize)
        } else {
            None
        }
    }

    // The node, or the one that stands for none: a return with mark 0 that is no entry.
    pub fn node_at(&self, n: u32) -> Node
        ensures { result ≡ node_at (program self.now) n }
    {
        self.node(n).unwrap_or(NO_NODE)
    }

    // An edge of the file.
    pub fn edge(&self, i: u32) -> Option<Edge>
        ensures { result ≡ slice_get (own_edges self.now) i }
    {
        if i < self.edges() {
            Some(self.layout.edge(i as usize))
        } else {
            None
        }
    }

    // Where a row leads on a mark: a row, or 255.
    pub fn cell(&self, row: u32, mark: u32) -> Option<u32>
        ensures { result ≡ cell_of (program self.now) row mark }
    {
        if row < self.rows() && mark < 32 {
            Some(self.layout.cell(row as usize, mark as usize))
        } else {
            None
        }
    }

    // The nodes of the method of node n.
    fn span_of(&self, n: u32) -> Span<'_, '_>
        requires { n < length (program self.now).nodes }
        ensures of { result.of.layout.now ≡ self.now.layout }
        ensures home { result.method ≡ home (program self.now).methods n }
        ensures low { result.start ≤ n }
        ensures high { n < result.end }
    {
        let divided = Divided {
            layout: &self.layout,
        };
        divided.first_span().seek(n as usize)
    }

    // The method of a node.
    pub fn method_of(&self, n: u32) -> Option<u32>
        ensures { result ≡ method_of (program self.now) n }
    {
        if n < self.nodes() {
            Some(self.span_of(n).method as u32)
        } else {
            None
        }
    }

    // Whether n is an entry of a method.
    pub fn is_entry_of(&self, method: u32, n: u32) -> bool
        ensures { result ≡ is_entry_of (program self.now) method n }
    {
        self.node_at(n).entry && self.method_of(n) == Some(method)
    }

    // Whether e is an edge by the rules: it leaves no return, and stays within a method.
    pub fn is_edge(&self, e: Edge) -> bool
        ensures { result ≡ is_edge (program self.now) e }
    {
        e.from < self.nodes() && self.span_of(e.from).edge_fits(e)
    }

    // Whether e counts after the last edge that did: an edge by the rules that rises above it.
    pub fn counts(&self, last: Option<Edge>, e: Edge) -> bool
        ensures { result ≡ counts (program self.now) last e }
    {
        rises_after(last, e) && self.is_edge(e)
    }
}
