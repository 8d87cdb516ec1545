// Tables that are marked before an inquiry, and what must stand in them after it.
use inquiry::{Fact, Report, Verdict};
use recipe::Edge;
use samples::marks::{MARK, MARK_EDGE, MARK_NODE};
use samples::rows::{Row, fact};
use std::alloc::{AllocError, Global};
use std::fmt::Debug;
use std::process::Abort;
use std::test::Fail;

// The table begins with these, and no place past them was written.
fn check_places<T: Copy + PartialEq + Debug>(rt: &impl Abort, table: &[T], front: &[T], mark: T) {
    assert!(rt; front.len() <= table.len());
    let (written, rest) = table.split_at(front.len());
    assert_eq!(rt; written, front);
    // the first place past them that was written, if any
    assert_eq!(rt; rest.iter().position(|place| *place != mark), None);
}

// The rows stand in the first places, and nothing was written past them.
pub(crate) fn check_facts(
    rt: &(impl Abort + AllocGlobal),
    facts: &[Fact],
    rows: &[Row],
) -> Result<(), Fail> {
    let expected: Vec<Fact> = rows.iter().map(|row| fact(*row)).collect(rt.alloc())?;
    check_places(rt, facts, &expected, MARK);
    Ok(())
}

// So many of the first rows.
pub(crate) fn first_rows(rows: &[Row], held: u32) -> Result<&[Row], &'static str> {
    rows.get(..held as usize)
        .ok_or("more facts are held than there are rows")
}

// The table holds these edges first, and nothing was written past them.
pub(crate) fn check_edges(rt: &impl Abort, edges: &[Edge], own: &[Edge]) {
    check_places(rt, edges, own, MARK_EDGE);
}

// The output begins with these nodes, and nothing was written past them.
pub(crate) fn check_output(rt: &impl Abort, out: &[u32], nodes: &[u32]) {
    check_places(rt, out, nodes, MARK_NODE);
}

// The report of an inquiry that worked all facts that it held.
pub(crate) fn all_worked(verdict: Verdict, facts: u32) -> Report {
    Report {
        verdict,
        held: facts,
        worked: facts,
    }
}

// The tables of an inquiry.
#[derive(Drop)]
pub struct Tables {
    pub facts: Vec<Fact>,
    pub edges: Vec<Edge>,
}

impl Tables {
    // So many places for facts and for edges, each of them marked.
    pub(crate) fn marked(heap: Global, facts: usize, edges: usize) -> Result<Tables, AllocError> {
        Ok(Tables {
            facts: vec![in heap; MARK; facts]?,
            edges: vec![in heap; MARK_EDGE; edges]?,
        })
    }
}
