// What does not fit is refused by fit, and by every call of the void inquiry, which writes nothing.
use crate::idle::Idle;
use crate::tables::{Tables, check_edges, check_facts};
use inquiry::{Inquiry, fit, inquire};
use recipe::Refusal::{self, TooMany, UnfitTable};
use recipe::recipe_of;
use rules::{AccessRule, Subject, TableWatch, Watch};
use samples::recipe_a;
use std::process::Abort;
use std::test::Fail;

// What a call answers, but for what an inquiry comes to.
type Answer = Result<(), Refusal>;

// Fact places, edge places, and what each call answers. Recipe A has four edges.
static TABLES: [(usize, usize, Answer); 8] = [
    (0, 4, Ok(())),
    (7, 3, Err(UnfitTable)),
    (7, 0, Err(UnfitTable)),
    (7, 4096, Ok(())),
    (7, 4097, Err(UnfitTable)),
    (65536, 4, Ok(())),
    (65537, 4, Err(UnfitTable)),
    (65537, 4097, Err(UnfitTable)),
];

// Handed out by a function, so that a proof of the test does not have to carry each of them.
fn tables() -> &'static [(usize, usize, Answer)] {
    &TABLES
}

// How many more than 65,535 values and states there are, edge places, and the answer: too many values or states come first.
static COUNTS: [(u16, u16, usize, Answer); 6] = [
    (1, 1, 4, Ok(())),
    (0, 0, 4, Ok(())),
    (2, 1, 4, Err(TooMany)),
    (1, 2, 4, Err(TooMany)),
    (2, 2, 3, Err(TooMany)),
    (1, 1, 3, Err(UnfitTable)),
];

// Handed out by a function, so that a proof of the test does not have to carry each of them.
fn counts() -> &'static [(u16, u16, usize, Answer)] {
    &COUNTS
}

// What a dig, a verdict and the end of an inquiry answer.
fn told<R: AccessRule, W: Watch>(on: &Subject<R, W>, tables: &mut Tables) -> [Answer; 3] {
    let mut inquiry = Inquiry::open(on, &mut tables.facts, &mut tables.edges);
    let dug = inquiry.dig(on, &tables.edges, 9);
    let verdict = inquiry.verdict(on.watch);
    let closed = inquiry.close(on.watch);
    [dug.map(|_| ()), verdict.map(|_| ()), closed.map(|_| ())]
}

// Every call answers alike, and a refusal leaves both tables; else the edges are copied.
fn check_fit<R: AccessRule, W: Watch>(
    rt: &(impl Abort + AllocGlobal),
    on: &Subject<R, W>,
    places: (usize, usize),
    expected: Answer,
    case: &str,
) -> Result<(), Fail> {
    let mut tables = Tables::marked(rt.alloc(), places.0, places.1)?;
    let fits = fit(on, &tables.facts, &tables.edges);
    assert_eq!(rt; fits, expected, "{case}");
    check_edges(rt, &tables.edges, &[]);
    assert_eq!(rt; told(on, &mut tables), [expected; 3], "{case}");
    if expected.is_ok() {
        check_edges(rt, &tables.edges, recipe_a::parts().edges);
        return Ok(());
    }
    let answer = inquire(on, &mut tables.facts, &mut tables.edges, 9);
    assert_eq!(rt; answer.map(|_| ()), expected, "{case}");
    check_edges(rt, &tables.edges, &[]);
    check_facts(rt, &tables.facts, &[])
}

#[test]
fn tables_that_do_not_fit(rt: HostRuntime) -> Result<(), Fail> {
    let recipe = &recipe_of(recipe_a::file())?;
    let on = Subject {
        recipe,
        rule: &Idle { more: 1 },
        watch: &TableWatch { recipe },
    };
    for &(facts, edges, expected) in tables() {
        let case = format!(in rt.alloc(); "{facts} fact places, {edges} edge places")?;
        check_fit(&rt, &on, (facts, edges), expected, &case)?;
    }
    Ok(())
}

#[test]
fn counts_that_do_not_fit(rt: HostRuntime) -> Result<(), Fail> {
    let recipe = &recipe_of(recipe_a::file())?;
    for &(values, states, edges, expected) in counts() {
        let on = Subject {
            recipe,
            rule: &Idle { more: values },
            watch: &Idle { more: states },
        };
        let case = format!(in rt.alloc(); "{values} {states} more, {edges} edge places")?;
        check_fit(&rt, &on, (7, edges), expected, &case)?;
    }
    Ok(())
}
