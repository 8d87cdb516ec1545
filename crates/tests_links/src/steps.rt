// What is asked of an open inquiry, one thing after another, and the trace that it tells at its end.
use crate::tables::Tables;
use inquiry::{Inquiry, Report, Verdict};
use model::Frame;
use recipe::{Edge, Refusal};
use rules::{AccessRule, Subject, Watch};
use std::process::Abort;
use std::test::Fail;
use walker::replay;

// A dig for up to so many facts, which answers how many are held; the link of an edge, which answers how many are in use; or an edge that is put into a place of the edge table, past the inquiry, which answers 0.
#[derive(Clone, Copy, Debug)]
pub enum Step {
    Dig(u32),
    Link(u32, u32),
    Put(usize, u32, u32),
}

// A step, what it answers, and the verdict then.
pub type Told = (Step, Result<u32, Refusal>, Verdict);

impl Step {
    fn take<R: AccessRule, W: Watch>(
        self,
        inquiry: &mut Inquiry,
        on: &Subject<R, W>,
        edges: &mut [Edge],
    ) -> Result<u32, Refusal> {
        match self {
            Step::Dig(allowed) => inquiry.dig(on, edges, allowed).map(|dug| dug.held),
            Step::Link(from, to) => inquiry.link(on, edges, Edge { from, to }),
            Step::Put(place, from, to) => {
                if let Some(tampered) = edges.get_mut(place) {
                    *tampered = Edge { from, to };
                }
                Ok(0)
            }
        }
    }
}

// Opens, takes the steps, asks for the trace, and closes.
pub(crate) fn taken<R: AccessRule, W: Watch>(
    rt: &impl Abort,
    on: &Subject<R, W>,
    tables: &mut Tables,
    steps: &[Told],
    out: &mut [u32],
) -> (Result<u32, Refusal>, Result<Report, Refusal>) {
    let mut inquiry = Inquiry::open(on, &mut tables.facts, &mut tables.edges);
    for &(step, answer, verdict) in steps {
        let told = step.take(&mut inquiry, on, &mut tables.edges);
        let judged = inquiry.verdict(on.watch);
        assert_eq!(rt; told, answer, "{step:?} of {steps:?}");
        assert_eq!(rt; judged, Ok(verdict), "{step:?} of {steps:?}");
    }
    let traced = inquiry.trace(on.watch, out);
    let report = inquiry.close(on.watch);
    (traced, report)
}

// The nodes are those of a bad run: over the edges in use, and over the whole table, of whose other places no edge counts.
pub(crate) fn check_walked<R: AccessRule, W: Watch>(
    rt: &(impl Abort + AllocGlobal),
    on: &Subject<R, W>,
    edges: &[Edge],
    used: usize,
    nodes: &[u32],
    case: &str,
) -> Result<(), Fail> {
    let in_use = edges.get(..used).ok_or("more edges than places")?;
    for lent in [in_use, edges] {
        let mut stack = vec![in rt.alloc(); Frame::default(); nodes.len()]?;
        let answer = replay(on, lent, &mut stack, nodes);
        assert_eq!(rt; answer.map(|at| at.bad), Ok(true), "{case}: {nodes:?}");
    }
    Ok(())
}
