// The facts of recipe A, worked out by hand from the four rules.
use crate::tables::{all_worked, check_report, check_rows};
use inquiry::{Report, Verdict};
use recipe::{Recipe, recipe_of};
use rules::{AccessRule, History, StackInspection, Subject, TableWatch, WallWatch};
use samples::recipe_a;
use samples::rows::{history_rows, stack_rows};
use std::process::Abort;
use std::test::Fail;

#[test]
fn both_tables_place_by_place(rt: HostRuntime) -> Result<(), Fail> {
    let recipe = &recipe_of(recipe_a::file())?;
    let watch = &TableWatch { recipe };
    let history = Subject {
        recipe,
        rule: &History,
        watch,
    };
    let safe = all_worked(Verdict::Safe, 4);
    check_rows(&rt, &history, 9, safe, history_rows(), "history")?;
    let stack = Subject {
        recipe,
        rule: &StackInspection,
        watch,
    };
    let bad = all_worked(Verdict::Unsafe, 7);
    check_rows(&rt, &stack, 12, bad, stack_rows(), "stack inspection")
}

// Two marks of a wall, and the verdicts under history and under stack inspection.
// Recipe A has mark 0 at its entry, then mark 1 in the first callee, and mark 2 behind the check.
const WALLS: [(u32, u32, Verdict, Verdict); 3] = [
    (1, 2, Verdict::Safe, Verdict::Unsafe),
    (1, 5, Verdict::Safe, Verdict::Safe),
    (0, 1, Verdict::Unsafe, Verdict::Unsafe),
];

// What an inquiry with a wall comes to under a rule; each case is a subject of its own, made here.
fn check_wall<R: AccessRule>(
    rt: &(impl Abort + AllocGlobal),
    recipe: &Recipe,
    rule: &R,
    watch: &WallWatch,
    expected: Report,
) -> Result<(), Fail> {
    let WallWatch { one, two } = watch;
    let case = format!(in rt.alloc(); "the wall of marks {one} and {two}")?;
    let on = Subject {
        recipe,
        rule,
        watch,
    };
    check_report(rt, &on, expected, &case)
}

#[test]
fn both_rules_with_walls(rt: HostRuntime) -> Result<(), Fail> {
    let recipe = recipe_of(recipe_a::file())?;
    for (one, two, history, stack) in WALLS {
        let watch = &WallWatch { one, two };
        check_wall(&rt, &recipe, &History, watch, all_worked(history, 4))?;
        check_wall(&rt, &recipe, &StackInspection, watch, all_worked(stack, 7))?;
    }
    Ok(())
}
