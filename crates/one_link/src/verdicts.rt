// Recipe A without its edge from 4 to 5, with this edge and with another.
use crate::linked::verdict_with;
use inquiry::{Fact, Verdict};
use recipe::Refusal::NotAnEdge;
use recipe::{Edge, recipe_of};
use rules::{StackInspection, Subject, TableWatch};
use samples::building::Parts;
use samples::recipe_a;
use std::test::Fail;

const BEFORE: [Edge; 3] = [
    Edge { from: 0, to: 1 },
    Edge { from: 1, to: 2 },
    Edge { from: 5, to: 6 },
];

#[test]
fn the_edge_decides(rt: HostRuntime) -> Result<(), Fail> {
    let parts = Parts {
        edges: &BEFORE,
        ..recipe_a::parts()
    };
    let file = parts.file(rt.alloc())?;
    let recipe = &recipe_of(&file)?;
    let on = Subject {
        recipe,
        rule: &StackInspection,
        watch: &TableWatch { recipe },
    };
    let mut facts = [Fact::default(); 9];
    let mut edges = [Edge::default(); 4];
    let harmful = verdict_with(&on, &mut facts, &mut edges, Edge { from: 4, to: 5 });
    let harmless = verdict_with(&on, &mut facts, &mut edges, Edge { from: 1, to: 0 });
    let wrong = verdict_with(&on, &mut facts, &mut edges, Edge { from: 0, to: 4 });
    assert_eq!(&rt; harmful, Ok(Verdict::Unsafe));
    assert_eq!(&rt; harmless, Ok(Verdict::Safe));
    assert_eq!(&rt; wrong, Err(NotAnEdge));
    Ok(())
}
