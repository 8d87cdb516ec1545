// Links that are refused: of two grounds the lower number is told, and nothing changes.
use crate::idle::Idle;
use crate::other_counts::one_node_more;
use crate::tables::{Tables, check_edges, check_facts, check_output, first_rows};
use inquiry::{Inquiry, Report, Verdict};
use recipe::Refusal::{
    self, EdgeHeld, EdgesFull, InquiryFull, NotAnEdge, OtherCounts, TooMany, UnfitTable,
};
use recipe::{Edge, Recipe, recipe_of};
use rules::{AccessRule, StackInspection, Subject, TableWatch, Watch};
use samples::marks::{MARK_EDGE, MARK_NODE};
use samples::recipe_a;
use samples::rows::{Row, stack_rows};
use std::process::Abort;
use std::test::Fail;

// Fact places, edge places, the edge that is to be linked, and why it is not.
// Recipe A has four edges, and is dug for three facts: in nine places it then holds four, and in three places it is full.
type Case = (usize, usize, (u32, u32), Refusal);

static CASES: [Case; 21] = [
    // to another method, from a return, to no node, from none
    (9, 6, (0, 4), NotAnEdge),
    (9, 6, (4, 3), NotAnEdge),
    (9, 6, (2, 1), NotAnEdge),
    (9, 6, (3, 3), NotAnEdge),
    (9, 6, (2, 4), NotAnEdge),
    (9, 6, (5, 7), NotAnEdge),
    (9, 6, (7, 6), NotAnEdge),
    (9, 6, (u32::MAX, u32::MAX), NotAnEdge),
    // the first, and the last
    (9, 6, (0, 1), EdgeHeld),
    (9, 6, (5, 6), EdgeHeld),
    // from a node to itself
    (9, 4, (1, 1), EdgesFull),
    (9, 4, (4, 4), EdgesFull),
    (3, 6, (1, 1), InquiryFull),
    (3, 5, (5, 4), InquiryFull),
    // two grounds, and three
    (9, 4, (0, 4), NotAnEdge),
    (3, 6, (0, 4), NotAnEdge),
    (9, 4, (0, 1), EdgeHeld),
    (3, 6, (0, 1), EdgeHeld),
    (3, 4, (1, 1), EdgesFull),
    (3, 4, (0, 1), EdgeHeld),
    (3, 4, (0, 4), NotAnEdge),
];

// Handed out by a function, so that a proof of the test does not have to carry each of them.
fn cases() -> &'static [Case] {
    &CASES
}

// What recipe A comes to in so many fact places when it is dug for three facts.
fn dug_for_three(places: usize) -> Report {
    if places < 4 {
        Report {
            verdict: Verdict::Full,
            held: 3,
            worked: 2,
        }
    } else {
        Report {
            verdict: Verdict::Unfinished,
            held: 4,
            worked: 3,
        }
    }
}

// The verdicts before and after a link, what the link answers, and the report.
type Linked = (
    [Result<Verdict, Refusal>; 2],
    Result<u32, Refusal>,
    Result<Report, Refusal>,
);

// Digs for three facts, and then links an edge.
fn link_after_three<R: AccessRule, W: Watch>(
    on: &Subject<R, W>,
    tables: &mut Tables,
    new: Edge,
) -> Linked {
    let mut inquiry = Inquiry::open(on, &mut tables.facts, &mut tables.edges);
    let _ = inquiry.dig(on, &tables.edges, 3);
    let before = inquiry.verdict(on.watch);
    let told = inquiry.link(on, &mut tables.edges, new);
    let after = inquiry.verdict(on.watch);
    let report = inquiry.close(on.watch);
    ([before, after], told, report)
}

// The link is refused, and all is as it was.
fn check_refused(rt: &(impl Abort + AllocGlobal), recipe: &Recipe, case: Case) -> Result<(), Fail> {
    let (facts, places, (from, to), refusal) = case;
    let on = Subject {
        recipe,
        rule: &StackInspection,
        watch: &TableWatch { recipe },
    };
    let expected = dug_for_three(facts);
    let Report { verdict, held, .. } = expected;
    let mut tables = Tables::marked(rt.alloc(), facts, places)?;
    let (verdicts, told, report) = link_after_three(&on, &mut tables, Edge { from, to });
    assert_eq!(rt; verdicts, [Ok(verdict); 2], "{case:?}");
    assert_eq!(rt; told, Err(refusal), "{case:?}");
    assert_eq!(rt; report, Ok(expected), "{case:?}");
    check_edges(rt, &tables.edges, recipe_a::parts().edges);
    check_facts(rt, &tables.facts, first_rows(stack_rows(), held)?)
}

#[test]
fn by_the_rules_and_the_tables(rt: HostRuntime) -> Result<(), Fail> {
    let recipe = recipe_of(recipe_a::file())?;
    for &case in cases() {
        check_refused(&rt, &recipe, case)?;
    }
    Ok(())
}

// With the idle rule and watch recipe A comes no further than its check. Two facts were worked.
static IDLE_ROWS: [Row; 3] = [
    [0, 0, 0, 0, 0, 0, 1, 0, 0, 1],
    [3, 0, 0, 3, 0, 0, 3, 1, 0, 1],
    [0, 0, 0, 1, 0, 0, 4, 1, 2, 3],
];

// Recipe A is opened with 65,536 values and states and five edge places; the link has other counts.
fn check_other<R: AccessRule, W: Watch>(
    rt: &(impl Abort + AllocGlobal),
    recipe: &Recipe,
    other: &Subject<R, W>,
    places: usize,
    new: (u32, u32),
    refusal: Refusal,
) -> Result<(), Fail> {
    let on = Subject {
        recipe,
        rule: &Idle { more: 1 },
        watch: &Idle { more: 1 },
    };
    let own = recipe_a::parts().edges;
    let (from, to) = new;
    let mut tables = Tables::marked(rt.alloc(), 6, 5)?;
    let mut lent = vec![in rt.alloc(); MARK_EDGE; places]?;
    for (place, edge) in lent.iter_mut().zip(own) {
        *place = *edge;
    }
    let mut inquiry = Inquiry::open(&on, &mut tables.facts, &mut tables.edges);
    let _ = inquiry.dig(&on, &tables.edges, 2);
    let told = inquiry.link(other, &mut lent, Edge { from, to });
    let report = inquiry.close(on.watch);
    assert_eq!(rt; told, Err(refusal), "{places} edge places, {new:?}");
    let expected = Report {
        verdict: Verdict::Unfinished,
        held: 3,
        worked: 2,
    };
    assert_eq!(rt; report, Ok(expected), "{places} edge places, {new:?}");
    check_edges(rt, &lent, own);
    check_facts(rt, &tables.facts, &IDLE_ROWS)
}

// How many more than 65,535 values and states there are, edge places, the edge that is to be linked, and why it is not.
type Other = (u16, u16, usize, (u32, u32), Refusal);

static OTHERS: [Other; 12] = [
    (1, 1, 4, (1, 1), OtherCounts),
    (1, 1, 6, (1, 1), OtherCounts),
    (0, 1, 5, (1, 1), OtherCounts),
    (1, 0, 5, (1, 1), OtherCounts),
    (2, 1, 5, (1, 1), TooMany),
    (1, 2, 5, (1, 1), TooMany),
    // no edge, or held, besides
    (1, 1, 4, (0, 4), OtherCounts),
    (1, 1, 6, (0, 1), OtherCounts),
    // too many, and an edge place less or more besides
    (2, 1, 6, (1, 1), TooMany),
    (1, 2, 4, (1, 1), TooMany),
    (2, 2, 4, (0, 4), TooMany),
    (0, 2, 5, (0, 1), TooMany),
];

// Handed out by a function, so that a proof of the test does not have to carry each of them.
fn others() -> &'static [Other] {
    &OTHERS
}

#[test]
fn with_other_counts(rt: HostRuntime) -> Result<(), Fail> {
    let recipe = &recipe_of(recipe_a::file())?;
    for &(values, states, places, new, refusal) in others() {
        let other = Subject {
            recipe,
            rule: &Idle { more: values },
            watch: &Idle { more: states },
        };
        check_other(&rt, recipe, &other, places, new, refusal)?;
    }
    let file = one_node_more(rt.alloc())?;
    let other = Subject {
        recipe: &recipe_of(&file)?,
        rule: &Idle { more: 1 },
        watch: &Idle { more: 1 },
    };
    check_other(&rt, recipe, &other, 5, (1, 1), OtherCounts)
}

// What a void inquiry answers: an edge by the rules, and none; with too many values besides; and the trace.
fn void_answers<R: AccessRule, W: Watch>(
    on: &Subject<R, W>,
    tables: &mut Tables,
    out: &mut [u32],
) -> [Result<u32, Refusal>; 4] {
    let many = Subject {
        recipe: on.recipe,
        rule: &Idle { more: 2 },
        watch: on.watch,
    };
    let legal = Edge { from: 1, to: 1 };
    let mut inquiry = Inquiry::open(on, &mut tables.facts, &mut tables.edges);
    let answers = [
        inquiry.link(on, &mut tables.edges, legal),
        inquiry.link(on, &mut tables.edges, Edge { from: 0, to: 4 }),
        inquiry.link(&many, &mut tables.edges, legal),
        inquiry.trace(on.watch, out),
    ];
    let _ = inquiry.close(on.watch);
    answers
}

// Fact places and edge places that do not fit recipe A.
const UNFIT: [(usize, usize); 4] = [(9, 3), (9, 0), (9, 4097), (65537, 4)];

// A void inquiry refuses every call as its opening was refused, and writes nothing.
fn check_void<R: AccessRule, W: Watch>(
    rt: &(impl Abort + AllocGlobal),
    on: &Subject<R, W>,
    places: (usize, usize),
    refusal: Refusal,
) -> Result<(), Fail> {
    let mut tables = Tables::marked(rt.alloc(), places.0, places.1)?;
    let mut out = [MARK_NODE; 6];
    let answers = void_answers(on, &mut tables, &mut out);
    assert_eq!(rt; answers, [Err(refusal); 4], "{places:?}");
    check_edges(rt, &tables.edges, &[]);
    check_output(rt, &out, &[]);
    check_facts(rt, &tables.facts, &[])
}

#[test]
fn of_a_void_inquiry(rt: HostRuntime) -> Result<(), Fail> {
    let recipe = &recipe_of(recipe_a::file())?;
    let on = Subject {
        recipe,
        rule: &StackInspection,
        watch: &TableWatch { recipe },
    };
    for places in UNFIT {
        check_void(&rt, &on, places, UnfitTable)?;
    }
    let many = Subject {
        recipe,
        rule: &StackInspection,
        watch: &Idle { more: 2 },
    };
    check_void(&rt, &many, (9, 3), TooMany)
}
