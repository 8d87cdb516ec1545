// Links: where a new edge comes to stand, and what digging finds then.
use crate::steps::{Step, Told, check_walked, taken};
use crate::tables::{Tables, all_worked, check_edges, check_facts, check_output};
use inquiry::{Inquiry, Verdict};
use recipe::{Edge, Recipe, Refusal, recipe_of};
use rules::{StackInspection, Subject, TableWatch};
use samples::building::Parts;
use samples::marks::{MARK, MARK_EDGE, MARK_NODE};
use samples::recipe_a::{self, TRACE};
use samples::rows::{Row, stack_rows};
use std::alloc::{AllocError, Global};
use std::process::Abort;
use std::test::Fail;

// Recipe A without its third edge, 4-5.
fn without_4_5(heap: Global) -> Result<Vec<u8>, AllocError> {
    let a = recipe_a::parts();
    let missing = Edge { from: 4, to: 5 };
    let edges: Vec<Edge> = a
        .edges
        .iter()
        .copied()
        .filter(|edge| *edge != missing)
        .collect(heap)?;
    let parts = Parts { edges: &edges, ..a };
    parts.file(heap)
}

// Opens a recipe under stack inspection, and takes the steps. Then the facts and edges stand in the tables, with nothing written past them, and the trace is that of recipe A, a bad run.
fn check_linked(
    rt: &(impl Abort + AllocGlobal),
    file: &[u8],
    steps: &[Told],
    facts: u32,
    rows: &[Row],
    edges: &[Edge],
) -> Result<(), Fail> {
    let recipe = &recipe_of(file)?;
    let on = Subject {
        recipe,
        rule: &StackInspection,
        watch: &TableWatch { recipe },
    };
    let mut tables = Tables::marked(rt.alloc(), 9, 7)?;
    let mut out = [MARK_NODE; 7];
    let (told, report) = taken(rt, &on, &mut tables, steps, &mut out);
    assert_eq!(rt; told, Ok(5));
    assert_eq!(rt; report, Ok(all_worked(Verdict::Unsafe, facts)));
    check_facts(rt, &tables.facts, rows)?;
    check_edges(rt, &tables.edges, edges);
    check_output(rt, &out, &TRACE);
    check_walked(rt, &on, &tables.edges, edges.len(), &TRACE, "after links")
}

// Without the edge the check leads nowhere, and four facts are all. With it the inquiry goes on: the four are worked once more, and the table is that of recipe A.
const MENDED: [Told; 3] = [
    (Step::Dig(7), Ok(4), Verdict::Safe),
    (Step::Link(4, 5), Ok(4), Verdict::Unfinished),
    (Step::Dig(7), Ok(7), Verdict::Unsafe),
];

#[test]
fn the_missing_edge_is_linked(rt: HostRuntime) -> Result<(), Fail> {
    let file = without_4_5(rt.alloc())?;
    let edges = recipe_a::parts().edges;
    check_linked(&rt, &file, &MENDED, 7, stack_rows(), edges)
}

// 4-5 is overwritten by no edge, 9-9. A new 4-5 is linked behind that, and is found by the inquiry and the walker alike.
const OVERWRITTEN: [Told; 4] = [
    (Step::Put(2, 9, 9), Ok(0), Verdict::Unfinished),
    (Step::Dig(9), Ok(4), Verdict::Safe),
    (Step::Link(4, 5), Ok(5), Verdict::Unfinished),
    (Step::Dig(9), Ok(7), Verdict::Unsafe),
];

const BEHIND_9_9: [Edge; 5] = [
    Edge { from: 0, to: 1 },
    Edge { from: 1, to: 2 },
    Edge { from: 9, to: 9 },
    Edge { from: 4, to: 5 },
    Edge { from: 5, to: 6 },
];

#[test]
fn an_overwritten_edge_is_linked(rt: HostRuntime) -> Result<(), Fail> {
    let file = recipe_a::file();
    check_linked(&rt, file, &OVERWRITTEN, 7, stack_rows(), &BEHIND_9_9)
}

// 5-6 stands at the sixth place alone, past those in use: it leads nowhere, a new edge does not come to stand next to it, and it is not held. At last it is linked, and stands at that place by right.
const PAST: [Told; 7] = [
    (Step::Put(3, 5, 4), Ok(0), Verdict::Unfinished),
    (Step::Put(5, 5, 6), Ok(0), Verdict::Unfinished),
    (Step::Dig(9), Ok(6), Verdict::Unsafe),
    (Step::Link(5, 5), Ok(5), Verdict::Unsafe),
    (Step::Dig(9), Ok(6), Verdict::Unsafe),
    (Step::Link(5, 6), Ok(6), Verdict::Unsafe),
    (Step::Dig(9), Ok(8), Verdict::Unsafe),
];

// With 5-4 the callee comes back to its check, with the watch turned bad; with 5-6 it returns.
static PAST_ROWS: [Row; 8] = [
    [0, 3, 0, 0, 3, 0, 1, 0, 0, 1],
    [3, 1, 1, 3, 1, 1, 3, 1, 0, 1],
    [0, 3, 0, 1, 3, 1, 4, 1, 2, 3],
    [4, 3, 1, 4, 3, 1, 3, 3, 0, 1],
    [4, 3, 1, 5, 3, 2, 2, 4, 0, 2],
    [4, 3, 1, 4, 3, 2, 2, 5, 0, 3],
    [4, 3, 1, 6, 3, 2, 2, 5, 0, 3],
    [0, 3, 0, 2, 3, 2, 4, 3, 7, 7],
];

const PAST_EDGES: [Edge; 6] = [
    Edge { from: 0, to: 1 },
    Edge { from: 1, to: 2 },
    Edge { from: 4, to: 5 },
    Edge { from: 5, to: 4 },
    Edge { from: 5, to: 5 },
    Edge { from: 5, to: 6 },
];

#[test]
fn an_edge_past_those_in_use_is_none(rt: HostRuntime) -> Result<(), Fail> {
    check_linked(&rt, recipe_a::file(), &PAST, 8, &PAST_ROWS, &PAST_EDGES)
}

// Four edges that are in use, the new one, and the five that are in use then.
type Case = ([(u32, u32); 4], (u32, u32), [(u32, u32); 5]);

// Node 9 is none, 0-4 leads to another method, and 3-3 leaves a return: they never count.
static CASES: [Case; 12] = [
    // before the first, between two, and behind the last
    (
        [(0, 1), (1, 2), (4, 5), (5, 6)],
        (0, 0),
        [(0, 0), (0, 1), (1, 2), (4, 5), (5, 6)],
    ),
    (
        [(0, 1), (1, 2), (4, 5), (5, 6)],
        (0, 2),
        [(0, 1), (0, 2), (1, 2), (4, 5), (5, 6)],
    ),
    (
        [(0, 1), (1, 2), (4, 5), (5, 6)],
        (5, 5),
        [(0, 1), (1, 2), (4, 5), (5, 5), (5, 6)],
    ),
    (
        [(0, 1), (1, 2), (4, 5), (5, 4)],
        (5, 6),
        [(0, 1), (1, 2), (4, 5), (5, 4), (5, 6)],
    ),
    // what does not count is passed over, though it may rise above the new edge, and stays before it
    (
        [(9, 9), (1, 2), (4, 5), (5, 6)],
        (0, 1),
        [(9, 9), (0, 1), (1, 2), (4, 5), (5, 6)],
    ),
    (
        [(0, 4), (3, 3), (4, 5), (5, 6)],
        (4, 4),
        [(0, 4), (3, 3), (4, 4), (4, 5), (5, 6)],
    ),
    (
        [(0, 1), (5, 9), (4, 5), (5, 6)],
        (1, 2),
        [(0, 1), (5, 9), (1, 2), (4, 5), (5, 6)],
    ),
    // behind all, if none that counts rises above it
    (
        [(0, 1), (1, 2), (9, 9), (0, 0)],
        (4, 5),
        [(0, 1), (1, 2), (9, 9), (0, 0), (4, 5)],
    ),
    (
        [(9, 9), (0, 4), (3, 3), (7, 0)],
        (0, 1),
        [(9, 9), (0, 4), (3, 3), (7, 0), (0, 1)],
    ),
    // 5-6 alone counts, since the others do not rise above it
    (
        [(5, 6), (0, 1), (1, 2), (4, 5)],
        (5, 5),
        [(5, 5), (5, 6), (0, 1), (1, 2), (4, 5)],
    ),
    // the new edge stands there already, but does not count behind one that it does not rise above
    (
        [(4, 5), (1, 2), (0, 1), (5, 6)],
        (1, 2),
        [(1, 2), (4, 5), (1, 2), (0, 1), (5, 6)],
    ),
    (
        [(1, 2), (0, 1), (0, 1), (4, 5)],
        (0, 1),
        [(0, 1), (1, 2), (0, 1), (0, 1), (4, 5)],
    ),
];

fn edge((from, to): (u32, u32)) -> Edge {
    Edge { from, to }
}

// Opens recipe A, puts other edges in the places in use, and links one; the table has three more places.
fn link_among(
    recipe: &Recipe,
    held: [(u32, u32); 4],
    new: (u32, u32),
) -> ([Edge; 7], Result<u32, Refusal>) {
    let on = Subject {
        recipe,
        rule: &StackInspection,
        watch: &TableWatch { recipe },
    };
    let mut facts = [MARK; 9];
    let mut edges = [MARK_EDGE; 7];
    let mut inquiry = Inquiry::open(&on, &mut facts, &mut edges);
    for (place, pair) in edges.iter_mut().zip(held) {
        *place = edge(pair);
    }
    let told = inquiry.link(&on, &mut edges, edge(new));
    let _ = inquiry.close(on.watch);
    (edges, told)
}

#[test]
fn a_new_edge_takes_its_rising_place(rt: HostRuntime) -> Result<(), Fail> {
    let recipe = recipe_of(recipe_a::file())?;
    for (held, new, expected) in CASES {
        let (edges, told) = link_among(&recipe, held, new);
        assert_eq!(rt; told, Ok(5), "{new:?} among {held:?}");
        check_edges(&rt, &edges, &expected.map(edge));
    }
    Ok(())
}
