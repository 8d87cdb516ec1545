// Both rules: the formulas, and every question that is not put as it should be.
use crate::sample::parts;
use recipe::{Recipe, recipe_of};
use rules::{AccessRule, History, StackInspection};
use std::process::Abort;
use std::test::Fail;

// What each question is asked, and what history and stack inspection answer: side by side, so that it is plain where they differ.
const ENTERS: [(u32, u32, u32, u32, u32); 9] = [
    (1, 0, 4, 2, 0),
    (3, 0, 4, 2, 2),
    (1, 1, 5, 0, 2),
    (65535, 0, 4, 2, 2),
    (65536, 0, 4, 0, 0),
    (3, 0, 5, 0, 0),
    (3, 0, 3, 0, 0),
    (3, 2, 4, 0, 0),
    (3, 7, 4, 0, 0),
];

const BACKS: [(u32, u32, u32, u32, u32, u32); 9] = [
    (3, 0, 1, 4, 3, 3),
    (1, 0, 3, 4, 1, 1),
    (3, 1, 1, 6, 1, 3),
    (65535, 0, 65535, 4, 65535, 65535),
    (65536, 0, 3, 4, 0, 0),
    (3, 0, 65536, 4, 0, 0),
    (3, 0, 3, 6, 0, 0),
    (3, 1, 3, 5, 0, 0),
    (3, 2, 3, 4, 0, 0),
];

const PASSES: [(u32, u32, bool); 7] = [
    (2, 5, true),
    (1, 5, false),
    (65535, 5, true),
    (65536, 5, false),
    (3, 0, false),
    (3, 2, false),
    (3, 9, false),
];

const FIRSTS: [(u32, u32); 5] = [(0, 3), (1, 0), (4, 0), (7, 0), (u32::MAX, 0)];

// What both rules answer alike.
fn check_alike<R: AccessRule>(rt: &impl Abort, rule: &R, recipe: &Recipe) {
    assert_eq!(rt; rule.values(recipe), 65536);
    for (n, value) in FIRSTS {
        assert_eq!(rt; rule.first(recipe, n), value, "entry {n}");
    }
    for (v, n, passed) in PASSES {
        assert_eq!(rt; rule.pass(recipe, v, n), passed, "check {n} with {v}");
    }
}

#[test]
fn rules_answer(rt: HostRuntime) -> Result<(), Fail> {
    let file = parts().file(rt.alloc())?;
    let recipe = recipe_of(&file)?;
    check_alike(&rt, &History, &recipe);
    check_alike(&rt, &StackInspection, &recipe);
    for (v, n, m, history, stack) in ENTERS {
        let entered = (
            History.enter(&recipe, v, n, m),
            StackInspection.enter(&recipe, v, n, m),
        );
        assert_eq!(rt; entered, (history, stack), "call {n} with {v} into {m}");
    }
    for (v, n, u, x, history, stack) in BACKS {
        let back = (
            History.back(&recipe, v, n, u, x),
            StackInspection.back(&recipe, v, n, u, x),
        );
        assert_eq!(rt;
            back,
            (history, stack),
            "call {n} with {v} back from {x} with {u}"
        );
    }
    Ok(())
}
