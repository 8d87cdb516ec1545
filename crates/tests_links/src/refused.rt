// Links that are refused after others, and in a full inquiry that is unsafe: nothing changes.
use crate::steps::{Step, Told, check_walked, taken};
use crate::tables::{Tables, check_edges, check_facts, check_output, first_rows};
use inquiry::{Report, Verdict};
use recipe::Refusal::{EdgeHeld, EdgesFull, InquiryFull, NotAnEdge};
use recipe::{Edge, recipe_of};
use rules::{StackInspection, Subject, TableWatch};
use samples::marks::MARK_NODE;
use samples::recipe_a::{self, TRACE};
use samples::rows::stack_rows;
use std::test::Fail;

// An edge that was linked is held, and the table with it is full. The facts are to be worked again for the one link that was not refused.
const AFTER_A_LINK: [Told; 6] = [
    (Step::Dig(9), Ok(7), Verdict::Unsafe),
    (Step::Link(1, 1), Ok(5), Verdict::Unsafe),
    (Step::Dig(1), Ok(7), Verdict::Unsafe),
    (Step::Link(4, 6), Err(EdgesFull), Verdict::Unsafe),
    (Step::Link(1, 1), Err(EdgeHeld), Verdict::Unsafe),
    (Step::Link(1, 4), Err(NotAnEdge), Verdict::Unsafe),
];

const WITH_1_1: [Edge; 5] = [
    Edge { from: 0, to: 1 },
    Edge { from: 1, to: 1 },
    Edge { from: 1, to: 2 },
    Edge { from: 4, to: 5 },
    Edge { from: 5, to: 6 },
];

#[test]
fn after_a_link(rt: HostRuntime) -> Result<(), Fail> {
    let recipe = &recipe_of(recipe_a::file())?;
    let on = Subject {
        recipe,
        rule: &StackInspection,
        watch: &TableWatch { recipe },
    };
    let mut tables = Tables::marked(rt.alloc(), 9, 5)?;
    let (_, report) = taken(&rt, &on, &mut tables, &AFTER_A_LINK, &mut []);
    let expected = Report {
        verdict: Verdict::Unsafe,
        held: 7,
        worked: 1,
    };
    assert_eq!(rt; report, Ok(expected));
    check_edges(&rt, &tables.edges, &WITH_1_1);
    check_facts(&rt, &tables.facts, stack_rows())
}

// In five places recipe A has its first bad fact, and no place for the next one: the verdict is unsafe, and the inquiry is full nevertheless.
const FULL_AND_UNSAFE: [Told; 3] = [
    (Step::Dig(9), Ok(5), Verdict::Unsafe),
    (Step::Link(1, 1), Err(InquiryFull), Verdict::Unsafe),
    (Step::Dig(9), Ok(5), Verdict::Unsafe),
];

#[test]
fn full_and_unsafe(rt: HostRuntime) -> Result<(), Fail> {
    let recipe = &recipe_of(recipe_a::file())?;
    let on = Subject {
        recipe,
        rule: &StackInspection,
        watch: &TableWatch { recipe },
    };
    let mut tables = Tables::marked(rt.alloc(), 5, 5)?;
    let mut out = [MARK_NODE; 5];
    let (told, report) = taken(&rt, &on, &mut tables, &FULL_AND_UNSAFE, &mut out);
    let expected = Report {
        verdict: Verdict::Unsafe,
        held: 5,
        worked: 4,
    };
    assert_eq!(rt; report, Ok(expected));
    check_edges(&rt, &tables.edges, recipe_a::parts().edges);
    check_facts(&rt, &tables.facts, first_rows(stack_rows(), 5)?)?;
    assert_eq!(rt; told, Ok(5));
    check_output(&rt, &out, &TRACE);
    check_walked(&rt, &on, &tables.edges, 4, &TRACE, "full and unsafe")
}
