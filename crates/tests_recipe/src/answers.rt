// What the accessors answer.
use model::Edge;
use recipe::{Recipe, recipe_of};
use samples::building::Parts;
use samples::recipe_a;
use std::fmt::Debug;
use std::process::Abort;
use std::test::Fail;

// An accessor answers each of these by its number.
fn check_each<T: Copy + PartialEq + Debug, F: Fn(u32) -> Option<T>>(
    rt: &impl Abort,
    items: &[T],
    answer: F,
)
    requires { F.IsAlwaysCallable answer }
{
    for (number, item) in (0..).zip(items) {
        assert_eq!(rt; answer(number), Some(*item), "number {number}");
    }
}

// The accessors answer what the file is made of.
fn check_parts(rt: &impl Abort, a: &Recipe, parts: Parts) {
    check_each(rt, parts.methods, |k| a.method(k));
    check_each(rt, parts.nodes, |n| a.node(n));
    check_each(rt, parts.edges, |i| a.edge(i));
    for (row, cells) in (0..).zip(parts.rows) {
        check_each(rt, &cells.map(u32::from), |mark| a.cell(row, mark));
    }
}

#[test]
fn accessors_answer_what_the_file_has(rt: HostRuntime) -> Result<(), Fail> {
    let a = recipe_of(recipe_a::file())?;
    assert_eq!(rt; (a.methods(), a.nodes(), a.edges(), a.rows()), (3, 7, 4, 2));
    check_parts(&rt, &a, recipe_a::parts());
    check_each(&rt, recipe_a::owners(), |n| a.method_of(n));
    Ok(())
}

#[test]
fn a_number_past_the_end_gets_none(rt: HostRuntime) -> Result<(), Fail> {
    let a = recipe_of(recipe_a::file())?;
    for (method, node, edge, row, mark) in [
        (3, 7, 4, 2, 32),
        (4, 8, 5, 3, 33),
        (u32::MAX, u32::MAX, u32::MAX, u32::MAX, u32::MAX),
    ] {
        assert_eq!(rt; a.method(method), None);
        assert_eq!(rt; a.node(node), None);
        assert_eq!(rt; a.method_of(node), None);
        assert_eq!(rt; a.edge(edge), None);
        assert_eq!(rt; a.cell(row, 0), None);
        assert_eq!(rt; a.cell(0, mark), None);
    }
    Ok(())
}

// Each pair is an edge by the rules, or none is.
fn check_pairs(rt: &impl Abort, a: &Recipe, pairs: &[(u32, u32)], expected: bool) {
    for &(from, to) in pairs {
        assert_eq!(rt; a.is_edge(Edge { from, to }), expected, "{from}-{to}");
    }
}

static PAIRS: [(u32, u32); 6] = [(0, 1), (0, 0), (0, 2), (1, 0), (4, 4), (5, 6)];

// To another method, from a return, and from and to no node.
static NO_PAIRS: [(u32, u32); 10] = [
    (0, 3),
    (0, 4),
    (4, 3),
    (2, 0),
    (3, 3),
    (6, 4),
    (7, 0),
    (0, 7),
    (u32::MAX, 0),
    (0, u32::MAX),
];

#[test]
fn an_edge_stays_in_its_method_and_leaves_no_return(rt: HostRuntime) -> Result<(), Fail> {
    let a = recipe_of(recipe_a::file())?;
    check_pairs(&rt, &a, &PAIRS, true);
    check_pairs(&rt, &a, &NO_PAIRS, false);
    Ok(())
}
