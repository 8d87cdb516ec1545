// Builds the bytes of files, right or wrong, with no help from the code under test: of the crate recipe only the definitions of the format are cited.
ghost use Rattle.std.specs.Prelude.{◌≡◌, ℕ, ◌<◌, ◌≤◌, length, map, IfOk, OnOk};
ghost use Rattle.std.specs.List.{All};
ghost use Rattle.model.specs.Lawful.{Lawful};
ghost use Rattle.recipe.specs.Format.{word, method_bytes, node_bytes, edge_bytes, bytes_of};
ghost use Rattle.samples.specs.Building.{program_in, cut, cut_method, cut_node, cut_edge, told, contents_of, built, blank_bytes, with_changes, node_of};

use model::{Edge, Kind, Method, Node};
use std::alloc::{AllocError, Global};
use std::test::Fail;

// What a file is made of. Nothing says that it is lawful.
#[derive(Clone, Copy)]
pub struct Parts<'a> {
    pub methods: &'a [Method],
    pub nodes: &'a [Node],
    pub edges: &'a [Edge],
    pub rows: &'a [[u8; 32]],
}

// A call of method 1 that grants and accepts nothing.
pub const CALL: Kind = Kind::Call {
    callee: 1,
    grant: 0,
    accept: 0,
    privileged: false,
};

// A call of main that grants and accepts nothing.
pub const CALL_MAIN: Kind = Kind::Call {
    callee: 0,
    grant: 0,
    accept: 0,
    privileged: false,
};

// A node's kind, mark, and whether it is an entry: a node in one line.
pub type Made = (Kind, u32, bool);

// The nodes of such lines.
pub fn nodes(heap: Global, made: &[Made]) -> Result<Vec<Node>, AllocError>
    ensures { IfOk result (λ nodes. nodes.items ≡ map node_of made.now) }
{
    made.iter()
        .map(|&(kind, mark, entry)| Node { kind, mark, entry })
        .collect(heap)
}

// The two lesser bytes of a number, the greater one first.
fn word(n: u32) -> [u8; 2]
    ensures { result ≡ word (cut n) }
{
    let [_, _, high, low] = n.to_be_bytes();
    [high, low]
}

// The record of a method: rights, node count.
fn method_record(method: Method) -> [u8; 4]
    ensures { result ≡ method_bytes (cut_method method) }
{
    let [r1, r0] = word(method.rights);
    let [n1, n0] = word(method.nodes);
    [r1, r0, n1, n0]
}

// The record of a node: kind, mark, flags, callee, grant, accept.
fn node_record(node: Node) -> [u8; 8]
    ensures { result ≡ node_bytes (cut_node node) }
{
    let entry = u8::from(node.entry);
    let (kind, flags, callee, grant, accept) = match node.kind {
        Kind::Nop => (0, entry, 0, 0, 0),
        Kind::Call {
            callee,
            grant,
            accept,
            privileged,
        } => (1, entry | u8::from(privileged) << 1, callee, grant, accept),
        Kind::Check { required } => (2, entry, 0, required, 0),
        Kind::Return => (3, entry, 0, 0, 0),
    };
    let [_, mark] = word(node.mark);
    let [_, callee] = word(callee);
    let [g1, g0] = word(grant);
    let [a1, a0] = word(accept);
    [kind, mark, flags, callee, g1, g0, a1, a0]
}

// The record of an edge: from, to.
fn edge_record(edge: Edge) -> [u8; 4]
    ensures { result ≡ edge_bytes (cut_edge edge) }
{
    let [f1, f0] = word(edge.from);
    let [t1, t0] = word(edge.to);
    [f1, f0, t1, t0]
}

// How many records there are, as far as a file can say.
fn count(len: usize) -> u32
    ensures value { result ≡ told len }
    ensures bound { result ≤ 65535 }
{
    len.min(65535) as u32
}

impl Parts<'_> {
    // The table of contents: place and count of each body, as the eight numbers that are written one after another.
    fn contents(&self) -> [u32; 8]
        ensures { result ≡ contents_of (told (length self.now.methods.now)) (told (length self.now.nodes.now)) (told (length self.now.edges.now)) (told (length self.now.rows.now)) }
    {
        let methods = count(self.methods.len());
        let nodes = count(self.nodes.len());
        let edges = count(self.edges.len());
        let rows = count(self.rows.len());
        let nodes_at = 16 + 4 * methods;
        let edges_at = nodes_at + 8 * nodes;
        let rows_at = edges_at + 4 * edges;
        [16, methods, nodes_at, nodes, edges_at, edges, rows_at, rows]
    }

    // The file: the table of contents, and the bodies without gaps. Of lawful parts it is the legal file of their program and edges.
    pub fn file(&self, heap: Global) -> Result<Vec<u8>, AllocError>
        ensures built { IfOk result (λ file. file.items ≡ built self.now) }
        ensures lawful { Lawful (program_in self.now) self.now.edges.now → IfOk result (λ file. file.items ≡ bytes_of (program_in self.now) self.now.edges.now) }
    {
        let mut file = Vec::new(heap);
        for n in self.contents() {
            file.extend_from_slice(&word(n))?;
        }
        for m in self.methods {
            file.extend_from_slice(&method_record(*m))?;
        }
        for n in self.nodes {
            file.extend_from_slice(&node_record(*n))?;
        }
        for e in self.edges {
            file.extend_from_slice(&edge_record(*e))?;
        }
        for cells in self.rows {
            file.extend_from_slice(cells)?;
        }
        Ok(file)
    }
}

// A file with this table of contents, cut or filled up with zeros to a length.
pub fn blank(heap: Global, contents: [u16; 8], len: usize) -> Result<Vec<u8>, AllocError>
    ensures { IfOk result (λ file. file.items ≡ blank_bytes contents len) }
{
    let mut file = Vec::new(heap);
    for n in contents {
        file.extend_from_slice(&n.to_be_bytes())?;
    }
    file.resize(len, 0)?;
    Ok(file)
}

// A copy of a file with some of its bytes changed. A change past the end would test nothing, so it fails.
pub fn changed(heap: Global, file: &[u8], changes: &[(usize, u8)]) -> Result<Vec<u8>, Fail>
    ensures changed { IfOk result (λ copy. copy.items ≡ with_changes file.now changes.now) }
    ensures within { OnOk result (All (λ c. c.0 < length file.now) changes.now) }
{
    let mut copy = file.to_vec(heap)?;
    for &(at, byte) in changes {
        *copy.get_mut(at).ok_or("a change past the end")? = byte;
    }
    Ok(copy)
}
