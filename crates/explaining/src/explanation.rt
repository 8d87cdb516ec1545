// What is said of a refused file.

// The fields of a node record, as the file has them.
#[derive(Clone, Copy, PartialEq, Eq, Debug)]
pub struct Fields {
    // 0 to 3, if it is one.
    pub kind: u32,
    pub mark: u32,
    // 1 for an entry and 2 for a privileged call.
    pub flags: u32,
    pub callee: u32,
    // What a call grants, and what a check requires.
    pub grant: u32,
    pub accept: u32,
}

// What is refused, with its values as the file has them.
#[derive(Clone, Copy, PartialEq, Eq, Debug)]
pub enum Record {
    // The file as a whole.
    File {
        length: usize,
    },
    // An entry of the table of contents, from 0: methods, nodes, edges, rows.
    Entry {
        entry: u32,
        place: u32,
        count: u32,
    },
    Method {
        number: u32,
        rights: u32,
        nodes: u32,
    },
    Node {
        number: u32,
        fields: Fields,
    },
    Edge {
        number: u32,
        from: u32,
        to: u32,
    },
    Row {
        number: u32,
    },
}

// A rule that a record breaks, one variant for each.
#[derive(Clone, Copy, PartialEq, Eq, Debug)]
pub enum Rule {
    // The file has fewer than the 16 bytes of a table of contents.
    ShortFile,
    // The last body ends elsewhere than the file.
    WrongLength { wanted: usize },
    // A body begins elsewhere than the one before it ends.
    WrongPlace { wanted: usize },
    // There are fewer of a kind than low, or more than high.
    WrongCount { low: u32, high: u32 },
    // The method has no nodes.
    NoNodes,
    // The methods up to this one have more nodes than there are.
    SumPast { sum: usize, nodes: usize },
    // All methods together have fewer nodes than there are.
    SumShort { sum: usize, nodes: usize },
    // No node of the method is an entry.
    NoEntry,
    // The kind is none of the four.
    UnknownKind,
    // The mark is past 31.
    WrongMark,
    // A flag besides entry and privileged is set.
    UnknownFlag,
    // The privileged flag is set of a node that is no call.
    NotPrivileged,
    // A field that the kind does not use is not 0.
    UnusedCallee,
    UnusedGrant,
    UnusedAccept,
    // The callee is no method.
    NoCallee { methods: usize },
    // The call grants, or accepts, what its own method has no right to.
    GrantOutside { rights: u32 },
    AcceptOutside { rights: u32 },
    // An end of the edge is no node.
    NoFrom { nodes: usize },
    NoTo { nodes: usize },
    // The edge leaves a return.
    LeavesReturn,
    // The edge leads from one method into another.
    LeavesMethod { from: usize, to: usize },
    // The edge does not rise above the one before it, which is this one.
    NotRising { from: u32, to: u32 },
    // A cell of the row is neither the number of a row nor 255.
    WrongCell { mark: u32, cell: u32 },
}

// What is refused, at which byte of the file it stands (the file as a whole, at its end), and which rule it breaks first.
#[derive(Clone, Copy, PartialEq, Eq, Debug)]
pub struct Explanation {
    pub what: Record,
    pub at: usize,
    pub broken: Rule,
}
