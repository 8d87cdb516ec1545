// Recipes with many facts: main is one ring of nodes, and each time round leads the watch on to its next row.
use model::{Edge, Kind, Method, Node};
use samples::building::{CALL, Parts};
use std::alloc::{AllocError, Global};
use std::fmt;

// A ring: how many nodes it has, how many of the first ones are entries, and whether each other node calls a method that returns at once.
#[derive(Clone, Copy)]
pub struct Ring {
    pub nodes: u32,
    pub entries: u32,
    pub calls: bool,
}

impl fmt::Display for Ring {
    fn fmt<W: fmt::Write>(&self, f: &mut fmt::Formatter<W>) -> fmt::Result {
        let calls = if self.calls { "with" } else { "without" };
        write!(
            f,
            "{} nodes, {} entries, {calls} calls",
            self.nodes, self.entries
        )
    }
}

// What a call of the ring goes into.
const CALLEE: Node = Node {
    kind: Kind::Return,
    mark: 0,
    entry: true,
};

// A row of 16: mark 1 leads to the next one, and from the last to the first; every other mark stays.
fn row(number: u8) -> [u8; 32] {
    let mut cells = [number; 32];
    cells[1] = if number < 15 { number + 1 } else { 0 };
    cells
}

impl Ring {
    // A ring of so many nodes and entries, without calls and with them.
    pub(crate) fn both(nodes: u32, entries: u32) -> [Ring; 2] {
        [false, true].map(|calls| Ring {
            nodes,
            entries,
            calls,
        })
    }

    // The node with a number: the first one has mark 1.
    fn node(&self, n: u32) -> Node {
        Node {
            kind: if self.calls && n % 2 == 1 {
                CALL
            } else {
                Kind::Nop
            },
            mark: u32::from(n == 0),
            entry: n < self.entries,
        }
    }

    // The edge that leaves a node: to the next one, and from the last to the first.
    fn edge(&self, n: u32) -> Edge {
        let next = n.saturating_add(1);
        Edge {
            from: n,
            to: if next < self.nodes { next } else { 0 },
        }
    }

    // The file of the recipe.
    pub(crate) fn file(&self, heap: Global) -> Result<Vec<u8>, AllocError> {
        let mut nodes: Vec<Node> = (0..self.nodes).map(|n| self.node(n)).collect(heap)?;
        nodes.push(CALLEE)?;
        let edges: Vec<Edge> = (0..self.nodes).map(|n| self.edge(n)).collect(heap)?;
        let methods = [
            Method {
                rights: 3,
                nodes: self.nodes,
            },
            Method {
                rights: 3,
                nodes: 1,
            },
        ];
        let rows: Vec<[u8; 32]> = (0..16).map(row).collect(heap)?;
        let parts = Parts {
            methods: &methods,
            nodes: &nodes,
            edges: &edges,
            rows: &rows,
        };
        parts.file(heap)
    }
}
