// Traces that go through calls are those of bad runs: with recursion, and several calls deep, under both rules and both watches.
use crate::digs::{check_walked, taken};
use crate::tables::{Tables, all_worked, check_output};
use inquiry::Verdict;
use model::Method;
use recipe::{Edge, Kind, recipe_of};
use rules::{AccessRule, History, StackInspection, Subject, TableWatch, WallWatch, Watch};
use samples::building::{self, CALL, CALL_MAIN, Made, Parts};
use samples::marks::MARK_NODE;
use samples::recipe_a;
use std::process::Abort;
use std::test::Fail;

// A recipe whose bad runs meet mark 1 and then mark 2: how many facts it has, and the trace of the first bad one.
// Every method has right 0 alone, and no node asks for a right, so that both rules yield the same facts.
struct Walked {
    name: &'static str,
    methods: &'static [Method],
    nodes: &'static [Made],
    edges: &'static [Edge],
    facts: u32,
    trace: &'static [u32],
}

// Calls of other methods than main and method 1.
const CALL_2: Kind = Kind::Call {
    callee: 2,
    grant: 0,
    accept: 0,
    privileged: false,
};

const CALL_3: Kind = Kind::Call {
    callee: 3,
    grant: 0,
    accept: 0,
    privileged: false,
};

const CALL_4: Kind = Kind::Call {
    callee: 4,
    grant: 0,
    accept: 0,
    privileged: false,
};

static WALKED: [Walked; 4] = [
    // Main calls itself, and the call comes back from 0 2: so the fact at node 3 has a call fact, 0 1, and a return fact, 0 2.
    Walked {
        name: "back from main in main",
        methods: &[Method {
            rights: 1,
            nodes: 4,
        }],
        nodes: &[
            (Kind::Nop, 1, true),
            (CALL_MAIN, 0, false),
            (Kind::Return, 0, false),
            (Kind::Nop, 2, false),
        ],
        edges: &[
            Edge { from: 0, to: 1 },
            Edge { from: 0, to: 2 },
            Edge { from: 1, to: 3 },
            Edge { from: 3, to: 2 },
        ],
        facts: 5,
        trace: &[0, 1, 0, 2, 3],
    },
    // Main calls itself, and the call begins at its other entry, with mark 2.
    Walked {
        name: "in main, called by main",
        methods: &[Method {
            rights: 1,
            nodes: 3,
        }],
        nodes: &[
            (Kind::Nop, 1, true),
            (CALL_MAIN, 0, false),
            (Kind::Return, 2, true),
        ],
        edges: &[Edge { from: 0, to: 1 }, Edge { from: 1, to: 2 }],
        facts: 5,
        trace: &[0, 1, 2],
    },
    // The same through another method.
    Walked {
        name: "in main, called by a callee of main",
        methods: &[
            Method {
                rights: 1,
                nodes: 3,
            },
            Method {
                rights: 1,
                nodes: 2,
            },
        ],
        nodes: &[
            (Kind::Nop, 1, true),
            (CALL, 0, false),
            (Kind::Return, 2, true),
            (CALL_MAIN, 0, true),
            (Kind::Return, 0, false),
        ],
        edges: &[
            Edge { from: 0, to: 1 },
            Edge { from: 1, to: 2 },
            Edge { from: 3, to: 4 },
        ],
        facts: 7,
        trace: &[0, 1, 3, 2],
    },
    // Main calls method 1, and this method 2, which calls 3 and then 4: there mark 2 is met. The stretches are 0 1, then 3, then 5 8 6, which comes back from method 3, and 9 10.
    Walked {
        name: "three calls deep",
        methods: &[
            Method {
                rights: 1,
                nodes: 3,
            },
            Method {
                rights: 1,
                nodes: 2,
            },
            Method {
                rights: 1,
                nodes: 3,
            },
            Method {
                rights: 1,
                nodes: 1,
            },
            Method {
                rights: 1,
                nodes: 2,
            },
        ],
        nodes: &[
            (Kind::Nop, 1, true),
            (CALL, 0, false),
            (Kind::Return, 0, false),
            (CALL_2, 0, true),
            (Kind::Return, 0, false),
            (CALL_3, 0, true),
            (CALL_4, 0, false),
            (Kind::Return, 0, false),
            (Kind::Return, 0, true),
            (Kind::Nop, 0, true),
            (Kind::Return, 2, false),
        ],
        edges: &[
            Edge { from: 0, to: 1 },
            Edge { from: 1, to: 2 },
            Edge { from: 3, to: 4 },
            Edge { from: 5, to: 6 },
            Edge { from: 6, to: 7 },
            Edge { from: 9, to: 10 },
        ],
        facts: 11,
        trace: &[0, 1, 3, 5, 8, 6, 9, 10],
    },
];

// The recipes: handed out by a function, so that a proof of a test does not have to carry each of them.
fn recipes() -> &'static [Walked] {
    &WALKED
}

// Works all facts, and has the trace replayed.
fn check_walk<R: AccessRule, W: Watch>(
    rt: &(impl Abort + AllocGlobal),
    on: &Subject<R, W>,
    facts: u32,
    trace: &[u32],
    name: &str,
) -> Result<(), Fail> {
    let own = on.recipe.edges() as usize;
    let mut tables = Tables::marked(rt.alloc(), 16, own.saturating_add(2))?;
    let mut out = [MARK_NODE; 9];
    let dig = (99, facts, Verdict::Unsafe);
    let (told, report) = taken(rt, on, &mut tables, dig, &mut out);
    assert_eq!(rt; told.map(|nodes| nodes as usize), Ok(trace.len()), "{name}");
    assert_eq!(rt; report, Ok(all_worked(Verdict::Unsafe, facts)), "{name}");
    check_output(rt, &out, trace);
    check_walked(rt, on, &tables.edges, own, trace, name)
}

// Under a rule with both watches. With the rows of recipe A mark 2 must not come after mark 1; with the wall no run may meet both.
fn check_watches<R: AccessRule>(
    rt: &(impl Abort + AllocGlobal),
    file: &[u8],
    rule: &R,
    facts: u32,
    trace: &[u32],
    name: &str,
) -> Result<(), Fail> {
    let recipe = &recipe_of(file)?;
    let by_table = Subject {
        recipe,
        rule,
        watch: &TableWatch { recipe },
    };
    check_walk(rt, &by_table, facts, trace, name)?;
    let by_wall = Subject {
        recipe,
        rule,
        watch: &WallWatch { one: 1, two: 2 },
    };
    check_walk(rt, &by_wall, facts, trace, name)
}

#[test]
fn traces_through_calls_are_bad_runs(rt: HostRuntime) -> Result<(), Fail> {
    let rows = recipe_a::parts().rows;
    for walked in recipes() {
        let &Walked {
            name,
            methods,
            nodes,
            edges,
            facts,
            trace,
        } = walked;
        let nodes = building::nodes(rt.alloc(), nodes)?;
        let parts = Parts {
            methods,
            nodes: &nodes,
            edges,
            rows,
        };
        let file = parts.file(rt.alloc())?;
        check_watches(&rt, &file, &History, facts, trace, name)?;
        check_watches(&rt, &file, &StackInspection, facts, trace, name)?;
    }
    Ok(())
}
