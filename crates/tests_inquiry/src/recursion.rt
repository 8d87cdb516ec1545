// Recipes that call themselves, and several entries: the facts were worked out by hand.
use crate::tables::{all_worked, check_report, check_rows};
use inquiry::Verdict;
use model::Method;
use recipe::{Edge, Kind, recipe_of};
use rules::{History, StackInspection, Subject, WallWatch};
use samples::building::{CALL, CALL_MAIN, Made, Parts, nodes};
use samples::rows::Row;
use std::test::Fail;

// Takes right 1 back under history, whatever the callee went through.
const CALL_ACCEPTING: Kind = Kind::Call {
    callee: 1,
    grant: 0,
    accept: 2,
    privileged: false,
};

// Main goes from its entry to its end, or calls itself first.
static SELF_METHODS: [Method; 1] = [Method {
    rights: 3,
    nodes: 3,
}];

static SELF_NODES: [Made; 3] = [
    (Kind::Nop, 1, true),
    (CALL_MAIN, 0, false),
    (Kind::Return, 2, false),
];

static SELF_EDGES: [Edge; 3] = [
    Edge { from: 0, to: 1 },
    Edge { from: 0, to: 2 },
    Edge { from: 1, to: 2 },
];

// The call begins where main began, and comes back to where main ends: no fact is new.
static SELF_ROWS: [Row; 3] = [
    [0, 3, 1, 0, 3, 1, 1, 0, 0, 1],
    [0, 3, 1, 1, 3, 1, 2, 1, 0, 2],
    [0, 3, 1, 2, 3, 3, 2, 1, 0, 2],
];

// Main has two entries, each a call, then a check of right 1; the callee has two entries and calls itself, and has right 0 alone.
static TWO_METHODS: [Method; 2] = [
    Method {
        rights: 3,
        nodes: 4,
    },
    Method {
        rights: 1,
        nodes: 3,
    },
];

static TWO_NODES: [Made; 7] = [
    (CALL, 0, true),
    (CALL_ACCEPTING, 0, true),
    (Kind::Check { required: 2 }, 0, false),
    (Kind::Return, 0, false),
    (Kind::Nop, 1, true),
    (Kind::Return, 2, true),
    (CALL, 0, false),
];

static TWO_EDGES: [Edge; 6] = [
    Edge { from: 0, to: 2 },
    Edge { from: 1, to: 2 },
    Edge { from: 2, to: 3 },
    Edge { from: 4, to: 5 },
    Edge { from: 4, to: 6 },
    Edge { from: 6, to: 5 },
];

// Under history with the wall of marks 1 and 2: only the accepting call gets past the check.
static TWO_ROWS: [Row; 13] = [
    [0, 3, 0, 0, 3, 0, 1, 0, 0, 1],
    [1, 3, 0, 1, 3, 0, 1, 0, 0, 1],
    [4, 1, 1, 4, 1, 1, 3, 1, 0, 1],
    [5, 1, 2, 5, 1, 2, 3, 1, 0, 1],
    [4, 1, 1, 5, 1, 3, 2, 3, 0, 2],
    [4, 1, 1, 6, 1, 1, 2, 3, 0, 2],
    [0, 3, 0, 2, 1, 2, 4, 1, 4, 3],
    [1, 3, 0, 2, 3, 2, 4, 2, 4, 3],
    [0, 3, 0, 2, 1, 3, 4, 1, 5, 4],
    [1, 3, 0, 2, 3, 3, 4, 2, 5, 4],
    [5, 1, 3, 5, 1, 3, 3, 6, 0, 1],
    [1, 3, 0, 3, 3, 2, 2, 8, 0, 4],
    [1, 3, 0, 3, 3, 3, 2, 10, 0, 5],
];

#[test]
fn main_calls_itself(rt: HostRuntime) -> Result<(), Fail> {
    let nodes = nodes(rt.alloc(), &SELF_NODES)?;
    let parts = Parts {
        methods: &SELF_METHODS,
        nodes: &nodes,
        edges: &SELF_EDGES,
        rows: &[],
    };
    let file = parts.file(rt.alloc())?;
    let recipe = &recipe_of(&file)?;
    let watch = &WallWatch { one: 1, two: 2 };
    let history = Subject {
        recipe,
        rule: &History,
        watch,
    };
    let bad = all_worked(Verdict::Unsafe, 3);
    check_rows(&rt, &history, 5, bad, &SELF_ROWS, "history")?;
    let stack = Subject {
        recipe,
        rule: &StackInspection,
        watch,
    };
    let bad = all_worked(Verdict::Unsafe, 3);
    check_rows(&rt, &stack, 3, bad, &SELF_ROWS, "stack inspection")
}

#[test]
fn entries_and_a_callee_that_calls_itself(rt: HostRuntime) -> Result<(), Fail> {
    let nodes = nodes(rt.alloc(), &TWO_NODES)?;
    let parts = Parts {
        methods: &TWO_METHODS,
        nodes: &nodes,
        edges: &TWO_EDGES,
        rows: &[],
    };
    let file = parts.file(rt.alloc())?;
    let recipe = &recipe_of(&file)?;
    let history = Subject {
        recipe,
        rule: &History,
        watch: &WallWatch { one: 1, two: 2 },
    };
    let bad = all_worked(Verdict::Unsafe, 13);
    check_rows(&rt, &history, 16, bad, &TWO_ROWS, "history")?;
    for (two, verdict) in [(2, Verdict::Unsafe), (7, Verdict::Safe)] {
        let stack = Subject {
            recipe,
            rule: &StackInspection,
            watch: &WallWatch { one: 1, two },
        };
        check_report(&rt, &stack, all_worked(verdict, 15), "stack inspection")?;
    }
    let other = Subject {
        recipe,
        rule: &History,
        watch: &WallWatch { one: 1, two: 7 },
    };
    let safe = all_worked(Verdict::Safe, 13);
    check_report(&rt, &other, safe, "history, with another wall")
}
