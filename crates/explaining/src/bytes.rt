// Reads the numbers of a file by where they would stand, whatever its bytes are: past its end, and past the last record, all is 0.
ghost use Rattle.std.specs.Prelude.{◌≡◌, ◌+◌, ◌*◌, ◌^◌, ◌<◌, ◌≤◌, None, Some};
ghost use Rattle.model.specs.Program.{method_at, home, offset};
ghost use Rattle.recipe.specs.Bytes.{byte_at, word_at, place_in, count_in, nodes_at, edges_at, rows_at, edge_in, cell_in, program_of};
ghost use Rattle.explaining.specs.Rules.{fields_in};

use crate::Fields;
use recipe::{Edge, Method};

fn byte(file: &[u8], at: usize) -> u8
    ensures { result ≡ byte_at file.now at }
{
    file.get(at).copied().unwrap_or(0)
}

// Two bytes as a number, the greater one first.
fn word(file: &[u8], at: usize) -> u32
    requires { at < 2 ^ 63 }
    ensures value { result ≡ word_at file.now at }
    ensures small { result < 65536 }
{
    u16::from_be_bytes([byte(file, at), byte(file, at + 1)]).into()
}

// The place in an entry of the table of contents.
pub(crate) fn place(file: &[u8], entry: usize) -> u32
    requires { entry < 4 }
    ensures { result ≡ place_in file.now entry }
{
    word(file, 4 * entry)
}

// The count in an entry of the table of contents.
pub(crate) fn count(file: &[u8], entry: usize) -> u32
    requires { entry < 4 }
    ensures value { result ≡ count_in file.now entry }
    ensures small { result < 65536 }
{
    word(file, 4 * entry + 2)
}

// Where the nodes, the edges and the rows are to begin, by the counts.
pub(crate) fn nodes_at(file: &[u8]) -> usize
    ensures value { result ≡ nodes_at file.now }
    ensures small { result < 2 ^ 20 }
{
    16 + 4 * count(file, 0) as usize
}

pub(crate) fn edges_at(file: &[u8]) -> usize
    ensures value { result ≡ edges_at file.now }
    ensures small { result < 2 ^ 21 }
{
    nodes_at(file) + 8 * count(file, 1) as usize
}

pub(crate) fn rows_at(file: &[u8]) -> usize
    ensures value { result ≡ rows_at file.now }
    ensures small { result < 2 ^ 22 }
{
    edges_at(file) + 4 * count(file, 2) as usize
}

pub(crate) fn method(file: &[u8], k: usize) -> Method
    ensures value { result ≡ method_at (program_of file.now) k }
    ensures small { result.nodes < 65536 }
{
    if k < count(file, 0) as usize {
        let at = 16 + 4 * k;
        Method {
            rights: word(file, at),
            nodes: word(file, at + 2),
        }
    } else {
        Method {
            rights: 0,
            nodes: 0,
        }
    }
}

// How many nodes the first k methods say that they have.
pub(crate) fn nodes_before(file: &[u8], k: usize) -> usize
    requires { k ≤ 65536 }
    ensures value { result ≡ offset (program_of file.now).methods k }
    ensures small { result ≤ 65536 * k }
{
    let mut sum = 0;
    for j in 0..k {
        sum += method(file, j).nodes as usize;
    }
    sum
}

// The method of a node; for one past them all, how many methods there are.
pub(crate) fn home(file: &[u8], n: usize) -> usize
    requires { n < 65536 }
    ensures { result ≡ home (program_of file.now).methods n }
{
    let methods = count(file, 0) as usize;
    let mut end = 0;
    for k in 0..methods {
        end += method(file, k).nodes as usize;
        if n < end {
            return k;
        }
    }
    methods
}

// The record of node n, if it were one.
pub(crate) fn fields(file: &[u8], n: usize) -> Fields
    requires { n < 65536 }
    ensures { result ≡ fields_in file.now n }
{
    let at = nodes_at(file) + 8 * n;
    Fields {
        kind: byte(file, at).into(),
        mark: byte(file, at + 1).into(),
        flags: byte(file, at + 2).into(),
        callee: byte(file, at + 3).into(),
        grant: word(file, at + 4),
        accept: word(file, at + 6),
    }
}

pub(crate) fn edge(file: &[u8], i: usize) -> Edge
    requires { i < 65536 }
    ensures value { result ≡ edge_in file.now i }
    ensures small { (result.from < 65536) × (result.to < 65536) }
{
    let at = edges_at(file) + 4 * i;
    Edge {
        from: word(file, at),
        to: word(file, at + 2),
    }
}

pub(crate) fn cell(file: &[u8], row: usize, mark: usize) -> u32
    requires { (row < 65536) × (mark < 32) }
    ensures { result ≡ cell_in file.now row mark }
{
    byte(file, rows_at(file) + 32 * row + mark).into()
}
