// Reads the records of a layout by number.
ghost use Rattle.std.specs.Prelude.{◌≡◌, ℕ, ◌+◌, ◌*◌, ◌<◌, ◌≤◌, length};
ghost use Rattle.recipe.specs.Bytes.{word_at, method_in, edge_in, cell_in, node_in, kind_of, record_at, program_of};
ghost use Rattle.model.specs.Program.{node_at};

use crate::Layout;
use model::{Edge, Kind, Method, Node};

// What stands for a node where there is none: a return with mark 0 that is no entry.
pub(crate) const NO_NODE: Node = Node {
    kind: Kind::Return,
    mark: 0,
    entry: false,
};

// Two bytes as a number, the greater one first.
pub(crate) fn word(bytes: &[u8], at: usize) -> u16
    requires { at + 1 < length bytes.now }
    ensures { result ≡ word_at bytes.now at }
{
    u16::from_be_bytes([bytes[at], bytes[at + 1]])
}

// What the fields of a node record that depend on its kind say, if those that its kind does not use are 0.
fn kind_of(kind: u8, flags: u8, callee: u32, grant: u32, accept: u32) -> Option<Kind>
    ensures { result ≡ kind_of kind flags callee grant accept }
{
    let plain = flags < 2 && callee == 0 && accept == 0;
    match kind {
        0 if plain && grant == 0 => Some(Kind::Nop),
        1 if flags < 4 => Some(Kind::Call {
            callee,
            grant,
            accept,
            privileged: flags >= 2,
        }),
        2 if plain => Some(Kind::Check { required: grant }),
        3 if plain && grant == 0 => Some(Kind::Return),
        _ => None,
    }
}

// The node that a record is, if it is one.
fn node_of(bytes: &[u8]) -> Option<Node>
    requires { length bytes.now ≡ 8 }
    ensures { result ≡ record_at bytes.now 0 }
{
    // A part of a file is a slice, though of a length that is known.
    let [kind, mark, flags, callee, g1, g0, a1, a0] = *bytes else {
        return None;
    };
    let grant = u16::from_be_bytes([g1, g0]);
    let accept = u16::from_be_bytes([a1, a0]);
    let kind = kind_of(kind, flags, callee.into(), grant.into(), accept.into())?;
    (mark < 32).then_some(Node {
        kind,
        mark: mark.into(),
        entry: flags % 2 == 1,
    })
}

impl Layout<'_> {
    pub(crate) fn method(&self, k: usize) -> Method
        requires { k < self.now.contents.methods.count }
        ensures { result ≡ method_in self.now.file.now k }
    {
        let at = usize::from(self.contents.methods.place) + 4 * k;
        Method {
            rights: word(self.file, at).into(),
            nodes: word(self.file, at + 2).into(),
        }
    }

    pub(crate) fn node(&self, n: usize) -> Option<Node>
        requires { n < self.now.contents.nodes.count }
        ensures { result ≡ node_in self.now.file.now n }
    {
        let at = usize::from(self.contents.nodes.place) + 8 * n;
        node_of(&self.file[at..at + 8])
    }

    // The node, or the one that stands for none.
    pub(crate) fn node_at(&self, n: usize) -> Node
        requires { n < self.now.contents.nodes.count }
        ensures { result ≡ node_at (program_of self.now.file.now) n }
    {
        self.node(n).unwrap_or(NO_NODE)
    }

    pub(crate) fn edge(&self, i: usize) -> Edge
        requires { i < self.now.contents.edges.count }
        ensures { result ≡ edge_in self.now.file.now i }
    {
        let at = usize::from(self.contents.edges.place) + 4 * i;
        Edge {
            from: word(self.file, at).into(),
            to: word(self.file, at + 2).into(),
        }
    }

    pub(crate) fn cell(&self, row: usize, mark: usize) -> u32
        requires { (row < self.now.contents.rows.count) × (mark < 32) }
        ensures { result ≡ cell_in self.now.file.now row mark }
    {
        let at = usize::from(self.contents.rows.place) + 32 * row + mark;
        self.file[at].into()
    }
}
