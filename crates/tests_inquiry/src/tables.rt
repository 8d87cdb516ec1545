// Tables that are marked before an inquiry, and what must stand in them after it.
use inquiry::{Fact, Report, Verdict, inquire};
use recipe::Edge;
use rules::{AccessRule, Subject, Watch};
use samples::marks::{MARK, MARK_EDGE};
use samples::rows::{Row, fact};
use std::alloc::{AllocError, Global};
use std::fmt::Debug;
use std::process::Abort;
use std::test::Fail;

// The table begins with these, and no place past them was written.
fn check_places<T: Copy + PartialEq + Debug>(rt: &impl Abort, table: &[T], front: &[T], mark: T) {
    assert!(rt; front.len() <= table.len());
    let (written, rest) = table.split_at(front.len());
    assert_eq!(rt; written, front);
    // the first place past them that was written, if any
    assert_eq!(rt; rest.iter().position(|place| *place != mark), None);
}

// The rows stand in the first places, and nothing was written past them.
pub(crate) fn check_facts(
    rt: &(impl Abort + AllocGlobal),
    facts: &[Fact],
    rows: &[Row],
) -> Result<(), Fail> {
    let expected: Vec<Fact> = rows.iter().map(|row| fact(*row)).collect(rt.alloc())?;
    check_places(rt, facts, &expected, MARK);
    Ok(())
}

// So many of the first rows.
pub(crate) fn first_rows(rows: &[Row], held: u32) -> Result<&[Row], &'static str> {
    rows.get(..held as usize)
        .ok_or("more facts are held than there are rows")
}

// The report of an inquiry that worked all facts that it held.
pub(crate) fn all_worked(verdict: Verdict, facts: u32) -> Report {
    Report {
        verdict,
        held: facts,
        worked: facts,
    }
}

// The tables of an inquiry.
#[derive(Drop)]
pub struct Tables {
    pub facts: Vec<Fact>,
    pub edges: Vec<Edge>,
}

impl Tables {
    // So many places for facts and for edges, each of them marked.
    pub(crate) fn marked(heap: Global, facts: usize, edges: usize) -> Result<Tables, AllocError> {
        Ok(Tables {
            facts: vec![in heap; MARK; facts]?,
            edges: vec![in heap; MARK_EDGE; edges]?,
        })
    }
}

// What an inquiry reports that has so many fact places, and as many edge places as there are edges; gives back its tables.
fn reported<R: AccessRule, W: Watch>(
    rt: &(impl Abort + AllocGlobal),
    on: &Subject<R, W>,
    places: usize,
    expected: Report,
    case: &str,
) -> Result<Tables, AllocError> {
    let mut tables = Tables::marked(rt.alloc(), places, on.recipe.edges() as usize)?;
    let report = inquire(on, &mut tables.facts, &mut tables.edges, u32::MAX);
    assert_eq!(rt; report, Ok(expected), "{case}");
    Ok(tables)
}

// The report of an inquiry in so many places, and the rows that it finds, of which as many are held as the report says.
pub(crate) fn check_rows<R: AccessRule, W: Watch>(
    rt: &(impl Abort + AllocGlobal),
    on: &Subject<R, W>,
    places: usize,
    expected: Report,
    rows: &[Row],
    case: &str,
) -> Result<(), Fail> {
    let rows = first_rows(rows, expected.held)?;
    let tables = reported(rt, on, places, expected, case)?;
    check_facts(rt, &tables.facts, rows)
}

// The report alone, in enough places, where the rows were not worked out.
pub(crate) fn check_report<R: AccessRule, W: Watch>(
    rt: &(impl Abort + AllocGlobal),
    on: &Subject<R, W>,
    expected: Report,
    case: &str,
) -> Result<(), Fail> {
    reported(rt, on, 32, expected, case)?;
    Ok(())
}
