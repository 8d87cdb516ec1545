// What check says of the records: the file of the samples, with some of its bytes changed.
use crate::telling::{checked, read, taken};
use recipe::Refusal::{self, BadEdge, BadMethod, BadNode, BadRow};
use samples::building::changed;
use samples::recipe_a;
use samples::recipe_a::*;
use std::process::Abort;
use std::test::Fail;

// The bytes to change, each by its place, and what check answers then.
type Case = (&'static [(usize, u8)], Result<(), Refusal>);

// The fields of the records: those of one byte, and of those of two the lesser byte, which the greater one stands before.
const COUNT: usize = 3;

const KIND: usize = 0;

const MARK: usize = 1;

const FLAGS: usize = 2;

const CALLEE: usize = 3;

const GRANT: usize = 5;

const ACCEPT: usize = 7;

const FROM: usize = 1;

const TO: usize = 3;

static METHODS: [Case; 12] = [
    (&[], Ok(())),
    // no nodes
    (&[(METHOD_0 + COUNT, 0)], Err(BadMethod { method: 0 })),
    (&[(METHOD_1 + COUNT, 0)], Err(BadMethod { method: 1 })),
    (&[(METHOD_2 + COUNT, 0)], Err(BadMethod { method: 2 })),
    // the sum passes the node count
    (&[(METHOD_0 + COUNT, 8)], Err(BadMethod { method: 0 })),
    (&[(METHOD_0 + COUNT - 1, 1)], Err(BadMethod { method: 0 })),
    (&[(METHOD_0 + COUNT, 7)], Err(BadMethod { method: 1 })),
    (&[(METHOD_1 + COUNT, 5)], Err(BadMethod { method: 1 })),
    (&[(METHOD_2 + COUNT, 4)], Err(BadMethod { method: 2 })),
    // the sum falls short, which the last method is told of
    (&[(METHOD_0 + COUNT, 2)], Err(BadMethod { method: 2 })),
    (&[(METHOD_2 + COUNT, 2)], Err(BadMethod { method: 2 })),
    // the sum is right, and an edge leads out of its method
    (
        &[(METHOD_0 + COUNT, 2), (METHOD_1 + COUNT, 2)],
        Err(BadEdge { edge: 1 }),
    ),
];

static ENTRIES: [Case; 7] = [
    (&[(NODE_0 + FLAGS, 0)], Err(BadMethod { method: 0 })),
    (&[(NODE_3 + FLAGS, 0)], Err(BadMethod { method: 1 })),
    (&[(NODE_4 + FLAGS, 0)], Err(BadMethod { method: 2 })),
    (
        &[(NODE_0 + FLAGS, 0), (NODE_4 + FLAGS, 0)],
        Err(BadMethod { method: 0 }),
    ),
    // any node of the method may be one, and several may
    (&[(NODE_0 + FLAGS, 0), (NODE_2 + FLAGS, 1)], Ok(())),
    (&[(NODE_5 + FLAGS, 1), (NODE_6 + FLAGS, 1)], Ok(())),
    // an entry of the method before is none of this one
    (
        &[(METHOD_1 + COUNT, 2), (METHOD_2 + COUNT, 2)],
        Err(BadMethod { method: 2 }),
    ),
];

// Kinds, marks and flags: flag 1 is for all, flag 2 for calls, and there is no other.
static NODES: [Case; 17] = [
    (&[(NODE_5 + KIND, 4)], Err(BadNode { node: 5 })),
    (&[(NODE_5 + KIND, 255)], Err(BadNode { node: 5 })),
    (
        &[(NODE_2 + KIND, 4), (NODE_5 + KIND, 4)],
        Err(BadNode { node: 2 }),
    ),
    (&[(NODE_0 + MARK, 31)], Ok(())),
    (&[(NODE_0 + MARK, 32)], Err(BadNode { node: 0 })),
    (&[(NODE_6 + MARK, 255)], Err(BadNode { node: 6 })),
    (&[(NODE_0 + FLAGS, 3)], Ok(())),
    (&[(NODE_1 + FLAGS, 2)], Ok(())),
    (&[(NODE_1 + FLAGS, 4)], Err(BadNode { node: 1 })),
    (&[(NODE_0 + FLAGS, 5)], Err(BadNode { node: 0 })),
    (&[(NODE_2 + FLAGS, 2)], Err(BadNode { node: 2 })),
    (&[(NODE_3 + FLAGS, 3)], Err(BadNode { node: 3 })),
    (&[(NODE_4 + FLAGS, 3)], Err(BadNode { node: 4 })),
    (&[(NODE_4 + FLAGS, 129)], Err(BadNode { node: 4 })),
    (&[(NODE_5 + FLAGS, 1)], Ok(())),
    (&[(NODE_5 + FLAGS, 2)], Err(BadNode { node: 5 })),
    (&[(NODE_5 + FLAGS, 4)], Err(BadNode { node: 5 })),
];

// What a kind does not use is 0. Node 2 returns, node 4 checks, node 5 does nothing.
static UNUSED: [Case; 14] = [
    (&[(NODE_2 + CALLEE, 1)], Err(BadNode { node: 2 })),
    (&[(NODE_2 + GRANT, 1)], Err(BadNode { node: 2 })),
    (&[(NODE_2 + GRANT - 1, 1)], Err(BadNode { node: 2 })),
    (&[(NODE_2 + ACCEPT, 1)], Err(BadNode { node: 2 })),
    (&[(NODE_2 + ACCEPT - 1, 1)], Err(BadNode { node: 2 })),
    (&[(NODE_4 + CALLEE, 1)], Err(BadNode { node: 4 })),
    (&[(NODE_4 + GRANT, 255), (NODE_4 + GRANT - 1, 255)], Ok(())),
    (&[(NODE_4 + ACCEPT, 1)], Err(BadNode { node: 4 })),
    (&[(NODE_4 + ACCEPT - 1, 1)], Err(BadNode { node: 4 })),
    (&[(NODE_5 + CALLEE, 1)], Err(BadNode { node: 5 })),
    (&[(NODE_5 + GRANT, 1)], Err(BadNode { node: 5 })),
    (&[(NODE_5 + GRANT - 1, 1)], Err(BadNode { node: 5 })),
    (&[(NODE_5 + ACCEPT, 1)], Err(BadNode { node: 5 })),
    (&[(NODE_5 + ACCEPT - 1, 1)], Err(BadNode { node: 5 })),
];

// A call's callee is one of the 3 methods, and what it grants and accepts is among its own method's rights: 3, but 1 at node 3.
static CALLS: [Case; 13] = [
    (&[(NODE_0 + CALLEE, 2)], Ok(())),
    (&[(NODE_0 + CALLEE, 3)], Err(BadNode { node: 0 })),
    (&[(NODE_1 + CALLEE, 255)], Err(BadNode { node: 1 })),
    (&[(NODE_0 + GRANT, 3)], Ok(())),
    (&[(NODE_0 + GRANT, 4)], Err(BadNode { node: 0 })),
    (&[(NODE_0 + GRANT - 1, 1)], Err(BadNode { node: 0 })),
    (&[(NODE_1 + ACCEPT, 3)], Ok(())),
    (&[(NODE_1 + ACCEPT, 7)], Err(BadNode { node: 1 })),
    (&[(NODE_1 + ACCEPT - 1, 128)], Err(BadNode { node: 1 })),
    (&[(NODE_3 + KIND, 1), (NODE_3 + GRANT, 1)], Ok(())),
    (
        &[(NODE_3 + KIND, 1), (NODE_3 + GRANT, 2)],
        Err(BadNode { node: 3 }),
    ),
    (&[(NODE_3 + KIND, 1), (NODE_3 + ACCEPT, 1)], Ok(())),
    (
        &[(NODE_3 + KIND, 1), (NODE_3 + ACCEPT, 3)],
        Err(BadNode { node: 3 }),
    ),
];

static EDGES: [Case; 18] = [
    // from a return
    (&[(EDGE_1 + FROM, 2)], Err(BadEdge { edge: 1 })),
    (&[(EDGE_3 + FROM, 6)], Err(BadEdge { edge: 3 })),
    (&[(NODE_5 + KIND, 3)], Err(BadEdge { edge: 3 })),
    // to another method
    (&[(EDGE_0 + TO, 3)], Err(BadEdge { edge: 0 })),
    (&[(EDGE_2 + TO, 3)], Err(BadEdge { edge: 2 })),
    (
        &[(EDGE_0 + TO, 3), (EDGE_2 + TO, 3)],
        Err(BadEdge { edge: 0 }),
    ),
    // from and to no node
    (&[(EDGE_3 + FROM, 7)], Err(BadEdge { edge: 3 })),
    (&[(EDGE_3 + FROM - 1, 1)], Err(BadEdge { edge: 3 })),
    (&[(EDGE_3 + TO, 7)], Err(BadEdge { edge: 3 })),
    (&[(EDGE_3 + TO - 1, 255)], Err(BadEdge { edge: 3 })),
    // not above the one before: equal, falling at its end, falling at its start
    (
        &[(EDGE_1 + FROM, 0), (EDGE_1 + TO, 1)],
        Err(BadEdge { edge: 1 }),
    ),
    (
        &[(EDGE_1 + FROM, 0), (EDGE_1 + TO, 0)],
        Err(BadEdge { edge: 1 }),
    ),
    (
        &[(EDGE_3 + FROM, 4), (EDGE_3 + TO, 4)],
        Err(BadEdge { edge: 3 }),
    ),
    (
        &[(EDGE_3 + FROM, 1), (EDGE_3 + TO, 2)],
        Err(BadEdge { edge: 3 }),
    ),
    // rising at its end alone, to itself, and back
    (&[(EDGE_1 + FROM, 0)], Ok(())),
    (&[(EDGE_0 + TO, 0)], Ok(())),
    (&[(EDGE_3 + TO, 5)], Ok(())),
    (&[(EDGE_3 + TO, 4)], Ok(())),
];

// A cell is one of the 2 rows, or 255.
static ROWS: [Case; 9] = [
    (&[(ROW_0, 1)], Ok(())),
    (&[(ROW_0, 2)], Err(BadRow { row: 0 })),
    (&[(ROW_0 + 31, 2)], Err(BadRow { row: 0 })),
    (&[(ROW_0 + 31, 255)], Ok(())),
    (&[(ROW_1, 2)], Err(BadRow { row: 1 })),
    (&[(ROW_1 + 31, 254)], Err(BadRow { row: 1 })),
    (&[(ROW_1 + 31, 255)], Ok(())),
    (&[(ROW_1 + 31, 0)], Ok(())),
    (&[(ROW_1, 254), (ROW_0 + 31, 254)], Err(BadRow { row: 0 })),
];

// Several wrong at once: methods go first, then nodes, methods with no entry, edges and rows.
static ORDER: [Case; 4] = [
    (
        &[
            (METHOD_2 + COUNT, 2),
            (NODE_0 + KIND, 4),
            (NODE_0 + FLAGS, 0),
            (EDGE_0 + TO, 3),
            (ROW_0, 2),
        ],
        Err(BadMethod { method: 2 }),
    ),
    (
        &[
            (NODE_6 + KIND, 4),
            (NODE_0 + FLAGS, 0),
            (EDGE_0 + TO, 3),
            (ROW_0, 2),
        ],
        Err(BadNode { node: 6 }),
    ),
    (
        &[(NODE_4 + FLAGS, 0), (EDGE_0 + TO, 3), (ROW_0, 2)],
        Err(BadMethod { method: 2 }),
    ),
    (&[(EDGE_3 + TO, 7), (ROW_0, 2)], Err(BadEdge { edge: 3 })),
];

// Each file passes take, and check and read answer alike.
fn check_cases(rt: &(impl Abort + AllocGlobal), cases: &[Case]) -> Result<(), Fail> {
    for (changes, answer) in cases {
        let file = changed(rt.alloc(), recipe_a::file(), changes)?;
        taken(&file)?;
        assert_eq!(rt; checked(&file), *answer, "{changes:?}");
        assert_eq!(rt; read(&file), *answer, "{changes:?}");
    }
    Ok(())
}

#[test]
fn check_tells_the_first_offence(rt: HostRuntime) -> Result<(), Fail> {
    check_cases(&rt, &METHODS)?;
    check_cases(&rt, &ENTRIES)?;
    check_cases(&rt, &NODES)?;
    check_cases(&rt, &UNUSED)?;
    check_cases(&rt, &CALLS)?;
    check_cases(&rt, &EDGES)?;
    check_cases(&rt, &ROWS)?;
    check_cases(&rt, &ORDER)
}
