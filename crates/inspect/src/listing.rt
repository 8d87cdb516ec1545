// Lists the methods, each with its nodes under it.
ghost use Rattle.std.specs.Prelude.{◌≡◌, ℕ, ◌<◌, ◌≤◌, length, ◌≢◌, slice_index_or, Some};
ghost use Rattle.inspect.specs.Phrases.{heading_text, run_text};
ghost use Rattle.model.specs.Program.{no_edge};

use crate::phrases::Run;
use crate::steps::Step;
use recipe::{Edge, Method, Recipe};
use showing::Held;
use std::{fmt, io};

// The line above a method's nodes.
#[derive(Drop)]
struct Heading {
    number: u32,
    method: Method,
    nodes: Run,
}

impl fmt::Display for Heading {
    ghost output = { λ h. Some (heading_text h.number h.method (run_text h.nodes.what.now h.nodes.first h.nodes.last)) };

    fn fmt<W: fmt::Write>(&self, f: &mut fmt::Formatter<W>) -> fmt::Result {
        let Heading {
            number,
            method,
            nodes,
        } = self;
        let main = if *number == 0 { " (main)" } else { "" };
        let rights = Held(method.rights);
        write!(f, "method {number}{main}: {rights}; {nodes}")
    }
}

// How many edges at the front of a list leave node n.
fn leaving(edges: &[Edge], n: u32) -> usize
    ensures within { result ≤ length edges.now }
    ensures front { (k : ℕ) → k < result → (slice_index_or edges.now k no_edge).from ≡ n }
    ensures stops { result < length edges.now → (slice_index_or edges.now result no_edge).from ≢ n }
{
    edges
        .iter()
        .position(|e| e.from != n)
        .unwrap_or(edges.len())
}

// Prints the nodes from first to the one before end. The edges are those that leave them or later nodes, in
// rising order, so the edges of each node stand at the front when its turn comes; what is left is given back.
fn list_nodes<'a>(
    rt: &impl Print,
    recipe: &Recipe,
    first: u32,
    end: u32,
    edges: &'a [Edge],
) -> io::Result<&'a [Edge]> {
    let mut rest = edges;
    for number in first..end {
        let (edges, others) = rest.split_at(leaving(rest, number));
        let step = Step {
            number,
            node: recipe.node_at(number),
            edges,
        };
        println!(rt; "  {step}")?;
        rest = others;
    }
    Ok(rest)
}

// Prints each method and its nodes. The edges are all of the recipe's, in rising order.
pub(crate) fn list_methods(rt: &impl Print, recipe: &Recipe, edges: &[Edge]) -> io::Result<()> {
    let mut first = 0u32;
    let mut rest = edges;
    // A recipe answers by number: there is no slice of methods to go through.
    for number in 0..recipe.methods() {
        if let Some(method) = recipe.method(number) {
            // The nodes of all methods are few, so nothing is cut off here.
            let end = first.saturating_add(method.nodes);
            let nodes = Run {
                what: "node",
                first,
                last: end.saturating_sub(1),
            };
            rt.println(Heading {
                number,
                method,
                nodes,
            })?;
            rest = list_nodes(rt, recipe, first, end, rest)?;
            first = end;
        }
    }
    Ok(())
}
