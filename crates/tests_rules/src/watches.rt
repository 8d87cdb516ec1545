// Both watches: their steps, the marks at the edge, and the states past the last.
use crate::sample::parts;
use recipe::recipe_of;
use rules::{TableWatch, WallWatch, Watch};
use samples::recipe_a;
use std::process::Abort;
use std::test::Fail;

// Steps of the table watch of two rows: state, mark, and where it leads.
const TABLE: [(u32, u32, u32); 9] = [
    (0, 0, 0),
    (0, 1, 1),
    (1, 2, 2),
    (1, 31, 1),
    (2, 1, 2),
    (2, 31, 2),
    (2, 32, 0),
    (3, 1, 0),
    (1, 32, 0),
];

// Walls: their two marks, a state and a mark, and where it leads.
const WALLS: [(u32, u32, u32, u32, u32); 9] = [
    (1, 5, 0, 5, 2),
    (1, 5, 2, 1, 3),
    (1, 5, 0, 0, 0),
    (1, 5, 3, 31, 3),
    (1, 5, 3, 32, 0),
    (1, 5, 4, 1, 0),
    (7, 7, 0, 7, 3),
    (40, 5, 0, 40, 0),
    (40, 5, 1, 5, 3),
];

// How many states a watch has, where it begins, and which of its states, counted from 0, and of those past them are bad.
fn check_states<W: Watch>(rt: &impl Abort, watch: &W, states: u32, bad: &[bool]) {
    assert_eq!(rt; watch.states(), states);
    assert_eq!(rt; watch.start(), 0);
    for (state, expected) in (0..).zip(bad) {
        assert_eq!(rt; watch.bad(state), *expected, "state {state}");
    }
}

#[test]
fn table_steps(rt: HostRuntime) -> Result<(), Fail> {
    let file = recipe_a::parts().file(rt.alloc())?;
    let recipe = recipe_of(&file)?;
    let watch = TableWatch { recipe: &recipe };
    check_states(&rt, &watch, 3, &[false, false, true, false]);
    for (state, mark, next) in TABLE {
        assert_eq!(rt; watch.step(state, mark), next, "state {state}, mark {mark}");
    }
    Ok(())
}

#[test]
fn table_without_rows(rt: HostRuntime) -> Result<(), Fail> {
    let file = parts().file(rt.alloc())?;
    let recipe = recipe_of(&file)?;
    let watch = TableWatch { recipe: &recipe };
    check_states(&rt, &watch, 1, &[true, false]);
    assert_eq!(rt; watch.step(0, 31), 0);
    Ok(())
}

#[test]
fn wall_steps(rt: HostRuntime) {
    for (one, two, state, mark, next) in WALLS {
        let watch = WallWatch { one, two };
        assert_eq!(rt;
            watch.step(state, mark),
            next,
            "{one} {two}: state {state}, mark {mark}"
        );
    }
    let watch = WallWatch { one: 1, two: 5 };
    let bad = [false, false, false, true, false, false, false, false];
    check_states(&rt, &watch, 4, &bad);
}
