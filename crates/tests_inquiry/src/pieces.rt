// Digs in pieces come to what one dig comes to.
use crate::tables::{check_facts, first_rows};
use inquiry::{Dug, Inquiry, Report, Verdict};
use recipe::{Recipe, recipe_of};
use rules::{StackInspection, Subject, TableWatch};
use samples::marks::{MARK, MARK_EDGE};
use samples::recipe_a;
use samples::rows::stack_rows;
use std::process::Abort;
use std::test::Fail;

// How many facts each dig may work, and what they come to together.
type Case = (&'static [u32], Verdict, u32, u32);

static CASES: [Case; 12] = [
    (&[], Verdict::Unfinished, 1, 0),
    (&[0], Verdict::Unfinished, 1, 0),
    (&[1], Verdict::Unfinished, 2, 1),
    (&[3], Verdict::Unfinished, 4, 3),
    (&[4], Verdict::Unsafe, 5, 4),
    (&[6], Verdict::Unsafe, 7, 6),
    (&[7], Verdict::Unsafe, 7, 7),
    (&[1, 1, 1], Verdict::Unfinished, 4, 3),
    (&[1, 1, 1, 1, 1, 1, 1, 1, 1], Verdict::Unsafe, 7, 7),
    (&[2, 3, 0, 1], Verdict::Unsafe, 7, 6),
    (&[0, 2, 3, 4], Verdict::Unsafe, 7, 7),
    (&[u32::MAX, 5], Verdict::Unsafe, 7, 7),
];

// Handed out by a function, so that a proof of the test does not have to carry each of them.
fn cases() -> &'static [Case] {
    &CASES
}

// Opens, digs as often as there are pieces, and closes: an inquiry must be closed, so no `?` leaves it before.
// Of the digs the last one is told, with the sum of what was finished.
fn check_pieces(
    rt: &(impl Abort + AllocGlobal),
    recipe: &Recipe,
    pieces: &[u32],
    expected: Report,
) -> Result<(), Fail> {
    let on = Subject {
        recipe,
        rule: &StackInspection,
        watch: &TableWatch { recipe },
    };
    let mut facts = [MARK; 9];
    let mut edges = [MARK_EDGE; 4];
    let mut inquiry = Inquiry::open(&on, &mut facts, &mut edges);
    let mut dug = Dug {
        finished: 0,
        held: 1,
    };
    for &allowed in pieces {
        if let Ok(next) = inquiry.dig(&on, &edges, allowed) {
            dug = Dug {
                finished: dug.finished.saturating_add(next.finished),
                ..next
            };
        }
    }
    let verdict = inquiry.verdict(on.watch);
    let report = inquiry.close(on.watch);
    let rows = first_rows(stack_rows(), expected.held)?;
    let told = Dug {
        finished: expected.worked,
        held: expected.held,
    };
    assert_eq!(rt; dug, told, "{pieces:?}");
    assert_eq!(rt; verdict, Ok(expected.verdict), "{pieces:?}");
    assert_eq!(rt; report, Ok(expected), "{pieces:?}");
    check_facts(rt, &facts, rows)
}

#[test]
fn pieces_come_to_the_whole(rt: HostRuntime) -> Result<(), Fail> {
    let recipe = recipe_of(recipe_a::file())?;
    for &(pieces, verdict, held, worked) in cases() {
        let expected = Report {
            verdict,
            held,
            worked,
        };
        check_pieces(&rt, &recipe, pieces, expected)?;
    }
    Ok(())
}
