// The trace of the first bad fact of recipe A, in outputs of several lengths.
use crate::digs::{Dig, check_walked, taken};
use crate::tables::{Tables, all_worked, check_facts, check_output};
use inquiry::{Inquiry, Verdict};
use recipe::Refusal::{self, LongTrace, NotUnsafe};
use recipe::{Edge, Recipe, recipe_of};
use rules::{AccessRule, History, StackInspection, Subject, TableWatch};
use samples::building::changed;
use samples::marks::{MARK, MARK_EDGE, MARK_NODE};
use samples::recipe_a::{self, TRACE};
use samples::rows::stack_rows;
use std::process::Abort;
use std::test::Fail;

// Places of the output, and the answer.
const ROOMS: [(usize, Result<u32, Refusal>); 6] = [
    (0, Err(LongTrace { length: 5 })),
    (1, Err(LongTrace { length: 5 })),
    (4, Err(LongTrace { length: 5 })),
    (5, Ok(5)),
    (6, Ok(5)),
    (9, Ok(5)),
];

// All seven facts are worked, and the fifth is bad.
const SEVEN: Dig = (9, 7, Verdict::Unsafe);

// Under a rule that yields the seven facts: the trace is written, and is that of a bad run; or it is too long, and the output is as it was.
fn check_rooms<R: AccessRule>(
    rt: &(impl Abort + AllocGlobal),
    file: &[u8],
    rule: &R,
    name: &str,
) -> Result<(), Fail> {
    let recipe = &recipe_of(file)?;
    let on = Subject {
        recipe,
        rule,
        watch: &TableWatch { recipe },
    };
    for (room, expected) in ROOMS {
        let case = format!(in rt.alloc(); "{room} places under {name}")?;
        let mut tables = Tables::marked(rt.alloc(), 9, 6)?;
        let mut out = vec![in rt.alloc(); MARK_NODE; room]?;
        let (told, report) = taken(rt, &on, &mut tables, SEVEN, &mut out);
        assert_eq!(rt; told, expected, "{case}");
        assert_eq!(rt; report, Ok(all_worked(Verdict::Unsafe, 7)), "{case}");
        check_facts(rt, &tables.facts, stack_rows())?;
        if expected.is_ok() {
            check_output(rt, &out, &TRACE);
            check_walked(rt, &on, &tables.edges, 4, &TRACE, &case)?;
        } else {
            check_output(rt, &out, &[]);
        }
    }
    Ok(())
}

#[test]
fn as_long_as_the_output_and_longer(rt: HostRuntime) -> Result<(), Fail> {
    check_rooms(&rt, recipe_a::file(), &StackInspection, "stack inspection")?;
    // Node 0 accepts right 1 back, so that main has both rights at its second call also under history, and its facts are those under stack inspection.
    let accepting = changed(rt.alloc(), recipe_a::file(), &[(recipe_a::NODE_0 + 7, 2)])?;
    check_rooms(&rt, &accepting, &History, "history")
}

// Fact places, and a dig that comes to no bad fact.
type Untraced = (usize, Dig);

const BY_HISTORY: [Untraced; 3] = [
    (9, (9, 4, Verdict::Safe)),
    (3, (9, 3, Verdict::Full)),
    (9, (2, 3, Verdict::Unfinished)),
];

// The fifth fact is the first bad one: it is not there yet, or has no place.
const BY_STACK: [Untraced; 3] = [
    (9, (3, 4, Verdict::Unfinished)),
    (4, (9, 4, Verdict::Full)),
    (0, (9, 0, Verdict::Full)),
];

// Recipe A has no trace there, whether the output is long enough or not, and the output is as it was.
fn check_untraced<R: AccessRule>(
    rt: &(impl Abort + AllocGlobal),
    rule: &R,
    cases: &[Untraced],
) -> Result<(), Fail> {
    let recipe = &recipe_of(recipe_a::file())?;
    let on = Subject {
        recipe,
        rule,
        watch: &TableWatch { recipe },
    };
    for &(places, dig) in cases {
        for room in [0, 4, 9] {
            let mut tables = Tables::marked(rt.alloc(), places, 4)?;
            let mut out = vec![in rt.alloc(); MARK_NODE; room]?;
            let (told, _) = taken(rt, &on, &mut tables, dig, &mut out);
            assert_eq!(rt; told, Err(NotUnsafe), "{places} fact places: {dig:?}");
            check_output(rt, &out, &[]);
        }
    }
    Ok(())
}

#[test]
fn no_bad_fact_no_trace(rt: HostRuntime) -> Result<(), Fail> {
    check_untraced(&rt, &History, &BY_HISTORY)?;
    check_untraced(&rt, &StackInspection, &BY_STACK)
}

// It is that of the first bad fact, and so the same before and after a link, and when more facts are bad.
// With the edge 1-0 main begins anew in the watch's bad state. Each of its first two nodes, and each node of both callees, then has a fact in that state: six more facts.
#[test]
fn the_trace_stays_as_the_inquiry_goes_on(rt: HostRuntime) -> Result<(), Fail> {
    let recipe = &recipe_of(recipe_a::file())?;
    let on = Subject {
        recipe,
        rule: &StackInspection,
        watch: &TableWatch { recipe },
    };
    let mut facts = [MARK; 16];
    let mut edges = [MARK_EDGE; 5];
    let mut before = [MARK_NODE; 6];
    let mut linked = [MARK_NODE; 6];
    let mut after = [MARK_NODE; 6];
    let mut inquiry = Inquiry::open(&on, &mut facts, &mut edges);
    let _ = inquiry.dig(&on, &edges, 4);
    let one = inquiry.trace(on.watch, &mut before);
    let _ = inquiry.link(&on, &mut edges, Edge { from: 1, to: 0 });
    let two = inquiry.trace(on.watch, &mut linked);
    let _ = inquiry.dig(&on, &edges, 99);
    let three = inquiry.trace(on.watch, &mut after);
    let report = inquiry.close(on.watch);
    assert_eq!(rt; [one, two, three], [Ok(5); 3]);
    for out in [before, linked, after] {
        check_output(&rt, &out, &TRACE);
    }
    assert_eq!(rt; report, Ok(all_worked(Verdict::Unsafe, 13)));
    check_walked(&rt, &on, &edges, 5, &TRACE, "with 1-0")
}

// Without rows the table watch is bad from its first state on. The smallest recipe has one node, where main begins and returns, and no fact is worked.
#[test]
fn bad_where_main_begins(rt: HostRuntime) -> Result<(), Fail> {
    let recipe = &Recipe::built_in();
    let on = Subject {
        recipe,
        rule: &History,
        watch: &TableWatch { recipe },
    };
    for (room, expected) in [(0, Err(LongTrace { length: 1 })), (1, Ok(1)), (2, Ok(1))] {
        let mut tables = Tables::marked(rt.alloc(), 2, 1)?;
        let mut out = vec![in rt.alloc(); MARK_NODE; room]?;
        let (told, _) = taken(&rt, &on, &mut tables, (0, 1, Verdict::Unsafe), &mut out);
        assert_eq!(rt; told, expected, "{room} places");
        if expected.is_ok() {
            check_output(&rt, &out, &[0]);
            check_walked(&rt, &on, &tables.edges, 0, &[0], "the smallest recipe")?;
        }
    }
    Ok(())
}
