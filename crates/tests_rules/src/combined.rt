// One generic caller at all four combinations of a rule and a watch.
use recipe::{Recipe, recipe_of};
use rules::{AccessRule, History, StackInspection, TableWatch, WallWatch, Watch};
use samples::recipe_a;
use std::test::Fail;

// The value at an entry of main and the state after a first mark, asked of the rule and the watch themselves and not of a subject.
fn begun<R: AccessRule, W: Watch>(
    rule: &R,
    watch: &W,
    recipe: &Recipe,
    entry: u32,
    mark: u32,
) -> (u32, u32) {
    let value = rule.first(recipe, entry);
    let state = watch.step(watch.start(), mark);
    (value, state)
}

#[test]
fn four_combinations(rt: HostRuntime) -> Result<(), Fail> {
    let file = recipe_a::parts().file(rt.alloc())?;
    let recipe = recipe_of(&file)?;
    let table = TableWatch { recipe: &recipe };
    let wall = WallWatch { one: 2, two: 1 };
    assert_eq!(rt; begun(&History, &table, &recipe, 0, 1), (3, 1));
    assert_eq!(rt; begun(&History, &wall, &recipe, 0, 1), (3, 2));
    assert_eq!(rt; begun(&StackInspection, &table, &recipe, 0, 2), (3, 0));
    assert_eq!(rt; begun(&StackInspection, &wall, &recipe, 3, 2), (0, 1));
    Ok(())
}
