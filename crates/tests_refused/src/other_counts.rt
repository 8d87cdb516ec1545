// A dig whose counts are not those of the opening is refused, and changes nothing.
use crate::idle::Idle;
use crate::tables::{all_worked, check_facts};
use inquiry::{Dug, Inquiry, Verdict};
use model::Node;
use recipe::Refusal::{self, OtherCounts, TooMany};
use recipe::{Edge, Kind, Recipe, recipe_of};
use rules::{AccessRule, History, Subject, TableWatch, WallWatch, Watch};
use samples::building::Parts;
use samples::marks::{MARK, MARK_EDGE};
use samples::recipe_a;
use samples::rows::history_rows;
use std::alloc::{AllocError, Global};
use std::test::Fail;

// Recipe A with a node more in its last method.
pub(crate) fn one_node_more(heap: Global) -> Result<Vec<u8>, AllocError> {
    let a = recipe_a::parts();
    let mut methods = a.methods.to_vec(heap)?;
    if let Some(last) = methods.last_mut() {
        last.nodes = 4;
    }
    let mut nodes = a.nodes.to_vec(heap)?;
    nodes.push(Node {
        kind: Kind::Nop,
        mark: 0,
        entry: false,
    })?;
    let parts = Parts {
        methods: &methods,
        nodes: &nodes,
        ..a
    };
    parts.file(heap)
}

// A dig for up to 9 facts; its subject is made here, since each dig has another.
fn dig<R: AccessRule, W: Watch>(
    inquiry: &mut Inquiry,
    recipe: &Recipe,
    rule: &R,
    watch: &W,
    edges: &[Edge],
) -> Result<Dug, Refusal> {
    let on = Subject {
        recipe,
        rule,
        watch,
    };
    inquiry.dig(&on, edges, 9)
}

// What digs answer that differ from the opening in one count: a node more; a state more; edge places, one less and one more; a value less and one too many; a state too many.
fn other_digs(
    inquiry: &mut Inquiry,
    recipe: &Recipe,
    other: &Recipe,
    edges: &[Edge],
) -> [Result<Dug, Refusal>; 7] {
    let watch = TableWatch { recipe };
    let wall = WallWatch { one: 1, two: 2 };
    let longer = [MARK_EDGE; 6];
    [
        dig(inquiry, other, &History, &watch, edges),
        dig(inquiry, recipe, &History, &wall, edges),
        dig(inquiry, recipe, &History, &watch, recipe_a::parts().edges),
        dig(inquiry, recipe, &History, &watch, &longer),
        dig(inquiry, recipe, &Idle { more: 0 }, &watch, edges),
        dig(inquiry, recipe, &Idle { more: 2 }, &watch, edges),
        dig(inquiry, recipe, &History, &Idle { more: 2 }, edges),
    ]
}

const TOLD: [Result<Dug, Refusal>; 7] = [
    Err(OtherCounts),
    Err(OtherCounts),
    Err(OtherCounts),
    Err(OtherCounts),
    Err(OtherCounts),
    Err(TooMany),
    Err(TooMany),
];

#[test]
fn other_counts_are_refused(rt: HostRuntime) -> Result<(), Fail> {
    let file = one_node_more(rt.alloc())?;
    let other = recipe_of(&file)?;
    let recipe = &recipe_of(recipe_a::file())?;
    let on = Subject {
        recipe,
        rule: &History,
        watch: &TableWatch { recipe },
    };
    let mut facts = [MARK; 6];
    let mut edges = [MARK_EDGE; 5];
    let mut inquiry = Inquiry::open(&on, &mut facts, &mut edges);
    let others = other_digs(&mut inquiry, recipe, &other, &edges);
    let _ = inquiry.dig(&on, &edges, 9);
    let report = inquiry.close(on.watch);
    assert_eq!(rt; others, TOLD);
    assert_eq!(rt; report, Ok(all_worked(Verdict::Safe, 4)));
    check_facts(&rt, &facts, history_rows())
}
