// An edge table that is written to between the opening and a dig: only the places in use are read, and only edges that count lead on.
use crate::tables::all_worked;
use inquiry::{Inquiry, Report, Verdict};
use recipe::{Edge, Recipe, Refusal, recipe_of};
use rules::{StackInspection, Subject, TableWatch};
use samples::marks::{MARK, MARK_EDGE};
use samples::recipe_a;
use std::test::Fail;

// A place of the table and the edge that is put there, the verdict, and how many facts there are.
static TAMPERED: [(usize, u32, u32, Verdict, u32); 6] = [
    // the same edge once more
    (0, 0, 1, Verdict::Unsafe, 7),
    // to another method
    (0, 0, 4, Verdict::Safe, 2),
    (2, 4, 3, Verdict::Safe, 4),
    // does not rise above 0-1, so that the second call leads nowhere
    (1, 0, 0, Verdict::Unsafe, 6),
    // an edge by the rules counts, also where the file has another
    (3, 5, 4, Verdict::Unsafe, 6),
    // to no node
    (3, 5, u32::MAX, Verdict::Unsafe, 5),
];

// Handed out by a function, so that a proof of the test does not have to carry each of them.
fn tampered() -> &'static [(usize, u32, u32, Verdict, u32)] {
    &TAMPERED
}

// Opens, puts an edge into the table, and digs. The fifth place, which is not in use, has an edge that would count behind 5-4.
fn dig_tampered(recipe: &Recipe, place: usize, edge: Edge) -> Result<Report, Refusal> {
    let on = Subject {
        recipe,
        rule: &StackInspection,
        watch: &TableWatch { recipe },
    };
    let mut facts = [MARK; 9];
    let mut edges = [MARK_EDGE; 5];
    let mut inquiry = Inquiry::open(&on, &mut facts, &mut edges);
    if let Some(tampered) = edges.get_mut(place) {
        *tampered = edge;
    }
    edges[4] = Edge { from: 5, to: 6 };
    let _ = inquiry.dig(&on, &edges, 99);
    inquiry.close(on.watch)
}

#[test]
fn tampered_edges_count_by_the_rules(rt: HostRuntime) -> Result<(), Fail> {
    let recipe = recipe_of(recipe_a::file())?;
    for &(place, from, to, verdict, facts) in tampered() {
        let report = dig_tampered(&recipe, place, Edge { from, to });
        let expected = all_worked(verdict, facts);
        assert_eq!(rt; report, Ok(expected), "place {place}: {from}-{to}");
    }
    Ok(())
}
