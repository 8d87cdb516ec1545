// Writes the file of a recipe with the edges of a list that count.
ghost use Rattle.std.specs.Prelude.{◌≡◌, ℕ, ◌+◌, ◌*◌, ◌/◌, ◌%◌, ◌<◌, ◌≤◌, List, ◌++◌, length, take, drop, IfOk};
ghost use Rattle.std.specs.List.{flat_map};
ghost use Rattle.recipe.specs.Bytes.{program_of, edges_of};
ghost use Rattle.recipe.specs.Format.{word, edge_bytes, contents_bytes, Legal};
ghost use Rattle.recipe.specs.Recipes.{file_of, program, own_edges};
ghost use Rattle.recipe.specs.Writing.{listed_edges, file_with, write_answer, write_output, AllCount, FileOf};

use crate::{Recipe, Refusal};
use model::Edge;

// A number in two bytes, the greater one first.
fn word(n: u32) -> [u8; 2]
    requires { n < 65536 }
    ensures { result ≡ word n }
{
    (n as u16).to_be_bytes()
}

// The record of an edge.
fn edge_bytes(e: Edge) -> [u8; 4]
    requires { (e.from < 65536) × (e.to < 65536) }
    ensures { result ≡ edge_bytes e }
{
    let [f1, f0] = word(e.from);
    let [t1, t0] = word(e.to);
    [f1, f0, t1, t0]
}

// The table of contents for these counts.
fn contents_bytes(methods: u32, nodes: u32, edges: u32, rows: u32) -> [u8; 16]
    requires { (methods ≤ 256) × ((nodes ≤ 1024) × ((edges ≤ 4096) × (rows ≤ 16))) }
    ensures { result ≡ contents_bytes methods nodes edges rows }
{
    let nodes_at = 16 + 4 * methods;
    let edges_at = nodes_at + 8 * nodes;
    let rows_at = edges_at + 4 * edges;
    let [m3, m2] = word(16);
    let [m1, m0] = word(methods);
    let [n3, n2] = word(nodes_at);
    let [n1, n0] = word(nodes);
    let [e3, e2] = word(edges_at);
    let [e1, e0] = word(edges);
    let [r3, r2] = word(rows_at);
    let [r1, r0] = word(rows);
    [
        m3, m2, m1, m0, n3, n2, n1, n0, e3, e2, e1, e0, r3, r2, r1, r0,
    ]
}

// Puts bytes at a place of the output.
fn put(out: &mut [u8], at: usize, bytes: &[u8])
    requires { at + length bytes.now ≤ length out.old }
    ensures { out.new ≡ take at out.old ++ (bytes.now ++ drop (at + length bytes.now) out.old) }
{
    let end = at + bytes.len();
    out[at..end].copy_from_slice(bytes);
}

impl Recipe<'_> {
    // How many edges of a list count, the first 4,096 places of it being read.
    pub fn count(&self, edges: &[Edge]) -> usize
        ensures value { result ≡ length (listed_edges (program self.now) edges.now) }
        ensures bound { result ≤ 4096 }
    {
        self.counted(edges).count()
    }

    // Puts the records of the edges of a list that count at a place of the output, one after another.
    fn put_edges(&self, edges: &[Edge], out: &mut [u8], at: usize)
        requires { at + 4 * length (listed_edges (program self.now) edges.now) ≤ length out.old }
        ensures { out.new ≡ take at out.old ++ (flat_map edge_bytes (listed_edges (program self.now) edges.now) ++ drop (at + 4 * length (listed_edges (program self.now) edges.now)) out.old) }
    {
        for (i, e) in self.counted(edges).enumerate() {
            put(out, at + 4 * i, &edge_bytes(e));
        }
    }
}

// The places of an edge list that are read: the first 4,096.
pub fn first_places(edges: &[Edge]) -> &[Edge]
    ensures value { result.now ≡ take 4096 edges.now }
    ensures bound { length result.now ≤ 4096 }
{
    &edges[..edges.len().min(4096)]
}

// Writes the recipe's file with the edges of the list that count, the first 4,096 places of it being read; answers its length.
pub fn write(recipe: &Recipe, edges: &[Edge], out: &mut [u8]) -> Result<usize, Refusal>
    ensures answer { result ≡ write_answer (file_with (program recipe.now) edges.now) out.old }
    ensures output { out.new ≡ write_output (file_with (program recipe.now) edges.now) out.old }
    ensures legal { Legal (file_with (program recipe.now) edges.now) }
    ensures program { program_of (file_with (program recipe.now) edges.now) ≡ program recipe.now }
    ensures edges { edges_of (file_with (program recipe.now) edges.now) ≡ listed_edges (program recipe.now) edges.now }
    ensures same { edges.now ≡ own_edges recipe.now → file_with (program recipe.now) edges.now ≡ file_of recipe.now }
    ensures means { AllCount (program recipe.now) edges.now → IfOk result (λ n. FileOf (program recipe.now) edges.now (take n out.new)) }
{
    let many = recipe.count(edges);
    let layout = &recipe.layout;
    // `as` and no `from`: the proof did not close with a call between the places and what they are
    let edges_at = layout.contents.edges.place as usize;
    let rows_at = layout.contents.rows.place as usize;
    let rows_to = edges_at + 4 * many;
    let needed = rows_to + 32 * layout.contents.rows.count as usize;
    if out.len() < needed {
        return Err(Refusal::ShortOutput {
            needed: needed as u32,
        });
    }
    put(
        out,
        0,
        &contents_bytes(recipe.methods(), recipe.nodes(), many as u32, recipe.rows()),
    );
    put(out, 16, &layout.file[16..edges_at]);
    recipe.put_edges(edges, out, edges_at);
    put(out, rows_to, &layout.file[rows_at..layout.file.len()]);
    Ok(needed)
}
