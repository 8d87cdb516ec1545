// The smallest and the largest file, and files with no edges or no rows: each is read, and written back byte for byte.
use crate::whole::{LONGEST, check_written_back};
use model::{Edge, Kind, Method, Node};
use recipe::{Draft, Recipe, recipe_of};
use samples::building::Parts;
use samples::recipe_a;
use std::alloc::Global;
use std::process::Abort;
use std::test::Fail;

// One method with no rights and one node, an entry that returns.
static SMALLEST: &[u8; 28] = b"\x00\x10\x00\x01\x00\x14\x00\x01\x00\x1c\x00\x00\x00\x1c\x00\x00\
    \x00\x00\x00\x01\
    \x03\x00\x01\x00\x00\x00\x00\x00";

// As many rows as there may be, each of which leads to the last one.
static FULL_ROWS: [[u8; 32]; 16] = [[15; 32]; 16];

// A node that has as much as its kind may have; none returns.
fn full_node(n: u32) -> Node {
    let kind = match n % 4 {
        0 => Kind::Call {
            callee: 255,
            grant: 65535,
            accept: 65535,
            privileged: true,
        },
        1 => Kind::Check { required: 65535 },
        2 => Kind::Call {
            callee: n / 4,
            grant: n,
            accept: n,
            privileged: false,
        },
        _ => Kind::Nop,
    };
    Node {
        kind,
        mark: n % 32,
        entry: true,
    }
}

// 256 methods of 4 nodes, with an edge from each to each, and 16 rows.
fn largest(heap: Global) -> Result<Vec<u8>, Fail> {
    let most = Method {
        rights: 65535,
        nodes: 4,
    };
    let methods = vec![in heap; most; 256]?;
    let nodes: Vec<Node> = (0..1024).map(full_node).collect(heap)?;
    let mut edges = Vec::new(heap);
    for from in 0..1024 {
        let first = from / 4 * 4;
        for to in first..first + 4 {
            edges.push(Edge { from, to })?;
        }
    }
    let parts = Parts {
        methods: &methods,
        nodes: &nodes,
        edges: &edges,
        rows: &FULL_ROWS,
    };
    Ok(parts.file(heap)?)
}

// A file is read, and written back as it was.
fn check_back(rt: &(impl Abort + AllocGlobal), file: &[u8]) -> Result<(), Fail> {
    check_written_back(rt, &recipe_of(file)?, file)
}

#[test]
fn legal_files_are_written_back(rt: HostRuntime) -> Result<(), Fail> {
    check_back(&rt, recipe_a::file())?;
    check_back(&rt, SMALLEST)?;
    let no_edges = Parts {
        edges: &[],
        ..recipe_a::parts()
    };
    check_back(&rt, &no_edges.file(rt.alloc())?)?;
    let no_rows = Parts {
        rows: &[],
        ..recipe_a::parts()
    };
    check_back(&rt, &no_rows.file(rt.alloc())?)
}

// The last node, edge and cell of the largest file.
fn check_last(rt: &impl Abort, file: &[u8]) -> Result<(), Fail> {
    let recipe = recipe_of(file)?;
    assert_eq!(rt; recipe.method_of(1023), Some(255));
    let last = Edge {
        from: 1023,
        to: 1023,
    };
    assert_eq!(rt; recipe.edge(4095), Some(last));
    assert_eq!(rt; recipe.cell(15, 31), Some(15));
    Ok(())
}

#[test]
fn the_largest_file_is_written_back(rt: HostRuntime) -> Result<(), Fail> {
    let file = largest(rt.alloc())?;
    assert_eq!(rt; file.len(), LONGEST);
    check_back(&rt, &file)?;
    check_last(&rt, &file)
}

// The builder and the bytes of the samples say the same, and the first values are the smallest recipe.
#[test]
fn samples_and_first_values(rt: HostRuntime) -> Result<(), Fail> {
    let file = recipe_a::parts().file(rt.alloc())?;
    assert_eq!(rt; file.as_slice(), recipe_a::file());
    let mut recipe = Recipe::built_in();
    check_written_back(&rt, &recipe, SMALLEST)?;
    recipe::check(Draft::built_in(), &mut recipe)?;
    check_written_back(&rt, &recipe, SMALLEST)
}
