// A refusal leaves what the caller holds.
use crate::whole::check_written_back;
use recipe::Refusal::{BadRow, Misplaced};
use recipe::{Draft, Recipe, check, read, take};
use samples::building::changed;
use samples::recipe_a;
use std::process::Abort;
use std::test::Fail;

#[test]
fn a_refused_take_leaves_the_draft(rt: HostRuntime) -> Result<(), Fail> {
    let file = recipe_a::file();
    let mut draft = Draft::built_in();
    take(file, &mut draft)?;
    assert_eq!(rt;
        take(&file[0..163], &mut draft),
        Err(Misplaced { entry: 4 })
    );
    assert_eq!(rt; take(&file[0..15], &mut draft), Err(Misplaced { entry: 4 }));
    let mut a = Recipe::built_in();
    check(draft, &mut a)?;
    check_written_back(&rt, &a, file)
}

// A recipe keeps a file while two others are refused, of which the bad one is taken and then fails.
fn check_kept<'a>(
    rt: &(impl Abort + AllocGlobal),
    file: &'a [u8],
    short: &'a [u8],
    bad: &'a [u8],
) -> Result<(), Fail> {
    let mut draft = Draft::built_in();
    take(bad, &mut draft)?;
    let mut a = Recipe::built_in();
    read(file, &mut a)?;
    assert_eq!(rt; read(short, &mut a), Err(Misplaced { entry: 4 }));
    assert_eq!(rt; read(bad, &mut a), Err(BadRow { row: 1 }));
    assert_eq!(rt; check(draft, &mut a), Err(BadRow { row: 1 }));
    check_written_back(rt, &a, file)
}

#[test]
fn a_refused_file_leaves_the_recipe(rt: HostRuntime) -> Result<(), Fail> {
    let file = recipe_a::file();
    // A cell that leads nowhere, which is found last.
    let bad = changed(rt.alloc(), file, &[(recipe_a::ROW_1 + 31, 2)])?;
    check_kept(&rt, file, &file[0..163], &bad)
}
