// Links among other requests: recipe A without its edge from 4 to 5, which is then linked.
use crate::lists::{Asked, DIG_ALL, MARK_NODE, check_asked, dug, judged, report, traced};
use asking::{Reply, Request};
use inquiry::Verdict;
use recipe::Edge;
use recipe::Refusal::{EdgeHeld, LongTrace, NotAnEdge, NotUnsafe};
use rules::StackInspection;
use samples::building::Parts;
use samples::recipe_a;
use std::test::Fail;

const BEFORE: [Edge; 3] = [
    Edge { from: 0, to: 1 },
    Edge { from: 1, to: 2 },
    Edge { from: 5, to: 6 },
];

// One place is not in use.
const AFTER: [Edge; 6] = [
    Edge { from: 0, to: 1 },
    Edge { from: 1, to: 0 },
    Edge { from: 1, to: 2 },
    Edge { from: 4, to: 5 },
    Edge { from: 5, to: 6 },
    Edge { from: 0, to: 0 },
];

// Safe with four facts, until the link lets the check be left: then node 5 is bad. What is refused between changes nothing. From then on each trace is the same one, in outputs that are too short, just long enough, longer and empty, across a link and a dig.
fn asked() -> [Asked; 17] {
    [
        (DIG_ALL, dug(4, 4)),
        (Request::Verdict, judged(Verdict::Safe)),
        (Request::Link { from: 0, to: 4 }, Err(NotAnEdge)),
        (Request::Link { from: 0, to: 1 }, Err(EdgeHeld)),
        (Request::Trace { room: 6 }, Err(NotUnsafe)),
        (Request::Verdict, judged(Verdict::Safe)),
        (
            Request::Link { from: 4, to: 5 },
            Ok(Reply::Linked { edges: 4 }),
        ),
        (Request::Verdict, judged(Verdict::Unfinished)),
        (Request::Dig { allowed: 7 }, dug(7, 7)),
        (Request::Verdict, judged(Verdict::Unsafe)),
        (Request::Trace { room: 4 }, Err(LongTrace { length: 5 })),
        (Request::Trace { room: 5 }, traced(5)),
        (Request::Link { from: 4, to: 5 }, Err(EdgeHeld)),
        (
            Request::Link { from: 1, to: 0 },
            Ok(Reply::Linked { edges: 5 }),
        ),
        (Request::Trace { room: 0 }, Err(LongTrace { length: 5 })),
        (Request::Dig { allowed: 1 }, dug(1, 7)),
        (Request::Trace { room: 99 }, traced(5)),
    ]
}

#[test]
fn a_link_makes_it_unsafe(rt: HostRuntime) -> Result<(), Fail> {
    let parts = Parts {
        edges: &BEFORE,
        ..recipe_a::parts()
    };
    let file = parts.file(rt.alloc())?;
    let lent = check_asked(
        &rt,
        &file,
        &StackInspection,
        &asked(),
        17,
        report(Verdict::Unsafe, 7, 1),
    )?;
    assert_eq!(&rt; lent.edges[..], AFTER[..]);
    assert_eq!(&rt; lent.output[..], [0, 3, 1, 4, 5, MARK_NODE][..]);
    Ok(())
}
