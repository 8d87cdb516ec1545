// Fact tables with fewer places than there are facts.
use crate::tables::check_rows;
use inquiry::{Report, Verdict};
use recipe::recipe_of;
use rules::{AccessRule, History, StackInspection, Subject, TableWatch};
use samples::recipe_a;
use samples::rows::{Row, history_rows, stack_rows};
use std::process::Abort;
use std::test::Fail;

// Fact places, the verdict, and how many facts are held and worked: the fact whose work finds no place is not worked.
type Case = (usize, Verdict, u32, u32);

// Under stack inspection.
const STACK: [Case; 9] = [
    (0, Verdict::Full, 0, 0),
    (1, Verdict::Full, 1, 0),
    (2, Verdict::Full, 2, 1),
    (3, Verdict::Full, 3, 2),
    (4, Verdict::Full, 4, 3),
    (5, Verdict::Unsafe, 5, 4),
    (6, Verdict::Unsafe, 6, 5),
    (7, Verdict::Unsafe, 7, 7),
    (8, Verdict::Unsafe, 7, 7),
];

// Under history.
const HISTORY: [Case; 4] = [
    (0, Verdict::Full, 0, 0),
    (3, Verdict::Full, 3, 2),
    (4, Verdict::Safe, 4, 4),
    (5, Verdict::Safe, 4, 4),
];

// Recipe A under a rule, in so many places; the subject is made here, since each rule has one.
fn check_cases<R: AccessRule>(
    rt: &(impl Abort + AllocGlobal),
    rule: &R,
    cases: &[Case],
    rows: &[Row],
    name: &str,
) -> Result<(), Fail> {
    let recipe = &recipe_of(recipe_a::file())?;
    let on = Subject {
        recipe,
        rule,
        watch: &TableWatch { recipe },
    };
    for &(places, verdict, held, worked) in cases {
        let case = format!(in rt.alloc(); "{places} places under {name}")?;
        let expected = Report {
            verdict,
            held,
            worked,
        };
        check_rows(rt, &on, places, expected, rows, &case)?;
    }
    Ok(())
}

#[test]
fn small_tables_under_both_rules(rt: HostRuntime) -> Result<(), Fail> {
    check_cases(
        &rt,
        &StackInspection,
        &STACK,
        stack_rows(),
        "stack inspection",
    )?;
    check_cases(&rt, &History, &HISTORY, history_rows(), "history")
}
