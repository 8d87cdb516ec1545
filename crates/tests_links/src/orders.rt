// Links and digs in several orders come to the same facts as one dig with all the edges.
use crate::steps::{Step, Told, check_walked, taken};
use crate::tables::{Tables, all_worked, check_edges, check_output};
use inquiry::{Fact, Report, Verdict, inquire};
use recipe::Refusal::{self, NotUnsafe};
use recipe::{Edge, recipe_of};
use rules::{AccessRule, History, StackInspection, Subject, TableWatch};
use samples::building::Parts;
use samples::marks::MARK_NODE;
use samples::recipe_a;
use std::alloc::{AllocError, Global};
use std::process::Abort;
use std::test::Fail;

// The edges of recipe A and two more, which lead back to its entry.
const ALL: [Edge; 6] = [
    Edge { from: 0, to: 0 },
    Edge { from: 0, to: 1 },
    Edge { from: 1, to: 0 },
    Edge { from: 1, to: 2 },
    Edge { from: 4, to: 5 },
    Edge { from: 5, to: 6 },
];

// Recipe A with these edges in place of its own.
fn with_edges(heap: Global, edges: &[Edge]) -> Result<Vec<u8>, AllocError> {
    let parts = Parts {
        edges,
        ..recipe_a::parts()
    };
    parts.file(heap)
}

// Under stack inspection main has both rights at every node. It comes to node 0 in each of the watch's three states, to 1 in states 1 and 2, and to 2 in state 2: six facts.
// The first callee begins in state 1 or 2, with one fact each, and the second one too, with three each: so there are 14. The first bad fact is always at node 5, in the call of the first round.
static BY_STACK: [&[Told]; 3] = [
    &[
        (Step::Dig(1), Ok(2), Verdict::Unfinished),
        (Step::Link(0, 1), Ok(1), Verdict::Unfinished),
        (Step::Dig(2), Ok(3), Verdict::Unfinished),
        (Step::Link(4, 5), Ok(2), Verdict::Unfinished),
        (Step::Dig(99), Ok(5), Verdict::Unsafe),
        (Step::Link(1, 0), Ok(3), Verdict::Unsafe),
        (Step::Link(5, 6), Ok(4), Verdict::Unsafe),
        (Step::Dig(3), Ok(5), Verdict::Unsafe),
        (Step::Link(0, 0), Ok(5), Verdict::Unsafe),
        (Step::Link(1, 2), Ok(6), Verdict::Unsafe),
        (Step::Dig(99), Ok(14), Verdict::Unsafe),
    ],
    &[
        (Step::Link(5, 6), Ok(1), Verdict::Unfinished),
        (Step::Link(1, 2), Ok(2), Verdict::Unfinished),
        (Step::Link(0, 1), Ok(3), Verdict::Unfinished),
        (Step::Dig(99), Ok(4), Verdict::Safe),
        (Step::Link(4, 5), Ok(4), Verdict::Unfinished),
        (Step::Link(1, 0), Ok(5), Verdict::Unfinished),
        (Step::Dig(99), Ok(13), Verdict::Unsafe),
        (Step::Link(0, 0), Ok(6), Verdict::Unsafe),
        (Step::Dig(99), Ok(14), Verdict::Unsafe),
    ],
    &[
        (Step::Link(5, 6), Ok(1), Verdict::Unfinished),
        (Step::Link(4, 5), Ok(2), Verdict::Unfinished),
        (Step::Link(1, 2), Ok(3), Verdict::Unfinished),
        (Step::Link(1, 0), Ok(4), Verdict::Unfinished),
        (Step::Link(0, 1), Ok(5), Verdict::Unfinished),
        (Step::Link(0, 0), Ok(6), Verdict::Unfinished),
        (Step::Dig(99), Ok(14), Verdict::Unsafe),
    ],
];

// Under history main has right 0 alone once it has called the first method, and the check stops every run: recipe A's four facts, and main at node 0 once more.
static BY_HISTORY: [&[Told]; 3] = [
    &[
        (Step::Dig(1), Ok(2), Verdict::Unfinished),
        (Step::Link(0, 1), Ok(1), Verdict::Unfinished),
        (Step::Dig(2), Ok(3), Verdict::Unfinished),
        (Step::Link(4, 5), Ok(2), Verdict::Unfinished),
        (Step::Dig(99), Ok(4), Verdict::Safe),
        (Step::Link(1, 0), Ok(3), Verdict::Unfinished),
        (Step::Link(5, 6), Ok(4), Verdict::Unfinished),
        (Step::Dig(3), Ok(4), Verdict::Unfinished),
        (Step::Link(0, 0), Ok(5), Verdict::Unfinished),
        (Step::Link(1, 2), Ok(6), Verdict::Unfinished),
        (Step::Dig(99), Ok(5), Verdict::Safe),
    ],
    &[
        (Step::Link(5, 6), Ok(1), Verdict::Unfinished),
        (Step::Link(1, 2), Ok(2), Verdict::Unfinished),
        (Step::Link(0, 1), Ok(3), Verdict::Unfinished),
        (Step::Dig(99), Ok(4), Verdict::Safe),
        (Step::Link(4, 5), Ok(4), Verdict::Unfinished),
        (Step::Link(1, 0), Ok(5), Verdict::Unfinished),
        (Step::Dig(99), Ok(4), Verdict::Safe),
        (Step::Link(0, 0), Ok(6), Verdict::Unfinished),
        (Step::Dig(99), Ok(5), Verdict::Safe),
    ],
    &[
        (Step::Link(5, 6), Ok(1), Verdict::Unfinished),
        (Step::Link(4, 5), Ok(2), Verdict::Unfinished),
        (Step::Link(1, 2), Ok(3), Verdict::Unfinished),
        (Step::Link(1, 0), Ok(4), Verdict::Unfinished),
        (Step::Link(0, 1), Ok(5), Verdict::Unfinished),
        (Step::Link(0, 0), Ok(6), Verdict::Unfinished),
        (Step::Dig(99), Ok(5), Verdict::Safe),
    ],
];

const PLACES: usize = 16;

// The table of an inquiry into recipe A with all the edges in its file.
fn facts_with_all<R: AccessRule>(
    rt: &(impl Abort + AllocGlobal),
    rule: &R,
    expected: Report,
) -> Result<Vec<Fact>, Fail> {
    let file = with_edges(rt.alloc(), &ALL)?;
    let recipe = &recipe_of(&file)?;
    let on = Subject {
        recipe,
        rule,
        watch: &TableWatch { recipe },
    };
    let mut tables = Tables::marked(rt.alloc(), PLACES, 6)?;
    let report = inquire(&on, &mut tables.facts, &mut tables.edges, u32::MAX);
    assert_eq!(rt; report, Ok(expected));
    Ok(tables.facts)
}

// Whether each fact of a table is one of another's, in whatever place and from whatever sources.
fn among(facts: &[Fact], others: &[Fact]) -> bool {
    facts.iter().all(|fact| {
        others.iter().any(|other| other.start() == fact.start() && other.end() == fact.end())
    })
}

// What all orders come to under a rule: how many facts, and the trace of the first bad one, if one is bad.
#[derive(Clone, Copy)]
struct Common {
    verdict: Verdict,
    facts: u32,
    trace: Result<&'static [u32], Refusal>,
}

// Each order in turn, on recipe A with no edge of its own: the edges are the same then, and so are the facts, each held once, and the trace is that of a bad run.
fn check_orders<R: AccessRule>(
    rt: &(impl Abort + AllocGlobal),
    rule: &R,
    orders: &[&[Told]],
    common: Common,
) -> Result<(), Fail> {
    let Common {
        verdict,
        facts,
        trace,
    } = common;
    let held = facts as usize;
    let whole = facts_with_all(rt, rule, all_worked(verdict, facts))?;
    let whole = whole.get(..held).ok_or("more facts than places")?;
    let file = with_edges(rt.alloc(), &[])?;
    let recipe = &recipe_of(&file)?;
    let on = Subject {
        recipe,
        rule,
        watch: &TableWatch { recipe },
    };
    for &steps in orders {
        let mut tables = Tables::marked(rt.alloc(), PLACES, 8)?;
        let mut out = [MARK_NODE; 6];
        let (told, report) = taken(rt, &on, &mut tables, steps, &mut out);
        assert_eq!(rt; report, Ok(all_worked(verdict, facts)), "{steps:?}");
        let length = told.map(|nodes| nodes as usize);
        assert_eq!(rt; length, trace.map(|nodes| nodes.len()), "{steps:?}");
        check_edges(rt, &tables.edges, &ALL);
        let found = tables.facts.get(..held).ok_or("more facts than places")?;
        assert!(rt; among(found, whole), "{steps:?}");
        assert!(rt; among(whole, found), "{steps:?}");
        if let Ok(nodes) = trace {
            check_output(rt, &out, nodes);
            check_walked(rt, &on, &tables.edges, 6, nodes, "in orders")?;
        } else {
            check_output(rt, &out, &[]);
        }
    }
    Ok(())
}

#[test]
fn orders_come_to_the_same_facts(rt: HostRuntime) -> Result<(), Fail> {
    let stack = Common {
        verdict: Verdict::Unsafe,
        facts: 14,
        trace: Ok(&[0, 3, 1, 4, 5]),
    };
    check_orders(&rt, &StackInspection, &BY_STACK, stack)?;
    let history = Common {
        verdict: Verdict::Safe,
        facts: 5,
        trace: Err(NotUnsafe),
    };
    check_orders(&rt, &History, &BY_HISTORY, history)
}
