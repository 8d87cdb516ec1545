// The recipe that most tests are about: a method that calls two others, and two rows of what may follow a mark.
// Its bytes are handed out by functions, so that a proof of a test does not have to carry each of them.
ghost use Rattle.std.specs.Prelude.{◌≡◌, length};
ghost use Rattle.model.specs.RecipeA.{program_a, edges_a};
ghost use Rattle.samples.specs.Building.{program_in};
ghost use Rattle.samples.specs.RecipeA.{file_a, owners_a};

use crate::building::{CALL, Parts};
use model::{Edge, Kind, Method, Node};

static METHODS: [Method; 3] = [
    Method {
        rights: 3,
        nodes: 3,
    },
    Method {
        rights: 1,
        nodes: 1,
    },
    Method {
        rights: 3,
        nodes: 3,
    },
];

static NODES: [Node; 7] = [
    Node {
        kind: CALL,
        mark: 0,
        entry: true,
    },
    Node {
        kind: Kind::Call {
            callee: 2,
            grant: 0,
            accept: 0,
            privileged: false,
        },
        mark: 0,
        entry: false,
    },
    Node {
        kind: Kind::Return,
        mark: 0,
        entry: false,
    },
    Node {
        kind: Kind::Return,
        mark: 1,
        entry: true,
    },
    Node {
        kind: Kind::Check { required: 2 },
        mark: 0,
        entry: true,
    },
    Node {
        kind: Kind::Nop,
        mark: 2,
        entry: false,
    },
    Node {
        kind: Kind::Return,
        mark: 0,
        entry: false,
    },
];

static EDGES: [Edge; 4] = [
    Edge { from: 0, to: 1 },
    Edge { from: 1, to: 2 },
    Edge { from: 4, to: 5 },
    Edge { from: 5, to: 6 },
];

// Row 0 goes on to row 1 at mark 1, and row 1 leads nowhere at mark 2; else both stay.
static ROWS: [[u8; 32]; 2] = [
    [
        0, 1, 0, 0, 0, 0, 0, 0, 0, 0, 0, 0, 0, 0, 0, 0, 0, 0, 0, 0, 0, 0, 0, 0, 0, 0, 0, 0, 0, 0,
        0, 0,
    ],
    [
        1, 1, 255, 1, 1, 1, 1, 1, 1, 1, 1, 1, 1, 1, 1, 1, 1, 1, 1, 1, 1, 1, 1, 1, 1, 1, 1, 1, 1, 1,
        1, 1,
    ],
];

// What the file is made of.
pub fn parts() -> Parts<'static>
    ensures program { program_in result ≡ program_a }
    ensures edges { result.edges.now ≡ edges_a }
{
    Parts {
        methods: &METHODS,
        nodes: &NODES,
        edges: &EDGES,
        rows: &ROWS,
    }
}

// The file, byte for byte: the table of contents, then a line for each record, and two for a row.
static FILE: &[u8; 164] = b"\x00\x10\x00\x03\x00\x1c\x00\x07\x00\x54\x00\x04\x00\x64\x00\x02\
    \x00\x03\x00\x03\
    \x00\x01\x00\x01\
    \x00\x03\x00\x03\
    \x01\x00\x01\x01\x00\x00\x00\x00\
    \x01\x00\x00\x02\x00\x00\x00\x00\
    \x03\x00\x00\x00\x00\x00\x00\x00\
    \x03\x01\x01\x00\x00\x00\x00\x00\
    \x02\x00\x01\x00\x00\x02\x00\x00\
    \x00\x02\x00\x00\x00\x00\x00\x00\
    \x03\x00\x00\x00\x00\x00\x00\x00\
    \x00\x00\x00\x01\
    \x00\x01\x00\x02\
    \x00\x04\x00\x05\
    \x00\x05\x00\x06\
    \x00\x01\x00\x00\x00\x00\x00\x00\x00\x00\x00\x00\x00\x00\x00\x00\
    \x00\x00\x00\x00\x00\x00\x00\x00\x00\x00\x00\x00\x00\x00\x00\x00\
    \x01\x01\xff\x01\x01\x01\x01\x01\x01\x01\x01\x01\x01\x01\x01\x01\
    \x01\x01\x01\x01\x01\x01\x01\x01\x01\x01\x01\x01\x01\x01\x01\x01";

// The bytes of the file.
pub fn file() -> &'static [u8]
    ensures bytes { result.now ≡ file_a }
    ensures length { length result.now ≡ 164 }
{
    FILE
}

static OWNERS: [u32; 7] = [0, 0, 0, 1, 2, 2, 2];

// The method of each node.
pub fn owners() -> &'static [u32]
    ensures { result.now ≡ owners_a }
{
    &OWNERS
}

// Where each record of the file begins.
pub const METHOD_0: usize = 16;

pub const METHOD_1: usize = 20;

pub const METHOD_2: usize = 24;

pub const NODE_0: usize = 28;

pub const NODE_1: usize = 36;

pub const NODE_2: usize = 44;

pub const NODE_3: usize = 52;

pub const NODE_4: usize = 60;

pub const NODE_5: usize = 68;

pub const NODE_6: usize = 76;

pub const EDGE_0: usize = 84;

pub const EDGE_1: usize = 88;

pub const EDGE_2: usize = 92;

pub const EDGE_3: usize = 96;

pub const ROW_0: usize = 100;

pub const ROW_1: usize = 132;

// The trace of its first bad fact under stack inspection, which is at node 5, and whose call began at node 4: 4 5 is its stretch.
// The call is node 1, which main comes to from node 0 through node 3: 0 3 1 is the stretch of that call's fact.
pub const TRACE: [u32; 5] = [0, 3, 1, 4, 5];
