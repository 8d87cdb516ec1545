// An inquiry that digs once, and the trace that it tells then.
use crate::tables::Tables;
use inquiry::{Inquiry, Report, Verdict};
use model::Frame;
use recipe::{Edge, Refusal};
use rules::{AccessRule, Subject, Watch};
use std::process::Abort;
use std::test::Fail;
use walker::replay;

// A dig for up to so many facts, how many are held then, and the verdict.
pub type Dig = (u32, u32, Verdict);

// Opens, digs, asks for the trace, and closes.
pub(crate) fn taken<R: AccessRule, W: Watch>(
    rt: &impl Abort,
    on: &Subject<R, W>,
    tables: &mut Tables,
    dig: Dig,
    out: &mut [u32],
) -> (Result<u32, Refusal>, Result<Report, Refusal>) {
    let (allowed, held, verdict) = dig;
    let mut inquiry = Inquiry::open(on, &mut tables.facts, &mut tables.edges);
    let dug = inquiry.dig(on, &tables.edges, allowed);
    let judged = inquiry.verdict(on.watch);
    let traced = inquiry.trace(on.watch, out);
    let report = inquiry.close(on.watch);
    assert_eq!(rt; dug.map(|dug| dug.held), Ok(held), "{dig:?}");
    assert_eq!(rt; judged, Ok(verdict), "{dig:?}");
    (traced, report)
}

// The nodes are those of a bad run: over the edges in use, and over the whole table, of whose other places no edge counts.
pub(crate) fn check_walked<R: AccessRule, W: Watch>(
    rt: &(impl Abort + AllocGlobal),
    on: &Subject<R, W>,
    edges: &[Edge],
    used: usize,
    nodes: &[u32],
    case: &str,
) -> Result<(), Fail> {
    let in_use = edges.get(..used).ok_or("more edges than places")?;
    for lent in [in_use, edges] {
        let mut stack = vec![in rt.alloc(); Frame::default(); nodes.len()]?;
        let answer = replay(on, lent, &mut stack, nodes);
        assert_eq!(rt; answer.map(|at| at.bad), Ok(true), "{case}: {nodes:?}");
    }
    Ok(())
}
