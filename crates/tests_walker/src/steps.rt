// Single steps from stacks that no run has left: they get no step and change nothing.
use model::Frame;
use recipe::Refusal::NotAStep;
use recipe::recipe_of;
use rules::{StackInspection, Subject, TableWatch};
use samples::recipe_a;
use std::test::Fail;
use walker::go;

// The nodes and values of a stack of two frames, as pairs so that a case is one line, a depth, and a node that is no step from there.
const FORGED: [([(u32, u32); 2], usize, u32); 8] = [
    ([(0, 3), (7, 3)], 2, 1),
    ([(7, 3), (3, 3)], 2, 1),
    ([(0, 3), (3, 3)], 0, 1),
    ([(0, 3), (3, 3)], 3, 1),
    ([(0, 3), (u32::MAX, 3)], 2, 0),
    ([(0, 3), (4, 65536)], 2, 5),
    ([(5, 3), (3, 3)], 2, 6),
    ([(2, 3), (3, 3)], 1, 1),
];

#[test]
fn forged_stacks_get_no_step(rt: HostRuntime) -> Result<(), Fail> {
    let recipe = &recipe_of(recipe_a::file())?;
    let on = Subject {
        recipe,
        rule: &StackInspection,
        watch: &TableWatch { recipe },
    };
    let edges = recipe_a::parts().edges;
    for (forged, depth, node) in FORGED {
        let stack = forged.map(|(node, value)| Frame { node, value });
        let mut frames = stack;
        let answer = go(&on, edges, &mut frames, depth, 0, node);
        assert_eq!(rt; answer, Err(NotAStep { place: 0 }), "{forged:?}");
        assert_eq!(rt; frames, stack, "{forged:?}");
    }
    Ok(())
}
