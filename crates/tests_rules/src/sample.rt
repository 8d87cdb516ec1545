// A recipe with grants, an accepting and a privileged call: main calls a method that lacks right 0, and another one as a privileged caller.
use model::{Edge, Kind, Method, Node};
use samples::building::Parts;

static METHODS: [Method; 3] = [
    Method {
        rights: 3,
        nodes: 4,
    },
    Method {
        rights: 2,
        nodes: 1,
    },
    Method {
        rights: 2,
        nodes: 2,
    },
];

static NODES: [Node; 7] = [
    Node {
        kind: Kind::Call {
            callee: 1,
            grant: 2,
            accept: 2,
            privileged: false,
        },
        mark: 0,
        entry: true,
    },
    Node {
        kind: Kind::Call {
            callee: 2,
            grant: 0,
            accept: 0,
            privileged: true,
        },
        mark: 0,
        entry: false,
    },
    Node {
        kind: Kind::Nop,
        mark: 0,
        entry: false,
    },
    Node {
        kind: Kind::Return,
        mark: 0,
        entry: false,
    },
    Node {
        kind: Kind::Return,
        mark: 1,
        entry: true,
    },
    Node {
        kind: Kind::Check { required: 2 },
        mark: 0,
        entry: true,
    },
    Node {
        kind: Kind::Return,
        mark: 0,
        entry: false,
    },
];

static EDGES: [Edge; 1] = [Edge { from: 0, to: 1 }];

// What its file is made of; it has no rows.
pub(crate) fn parts() -> Parts<'static> {
    Parts {
        methods: &METHODS,
        nodes: &NODES,
        edges: &EDGES,
        rows: &[],
    }
}
