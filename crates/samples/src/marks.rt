// What stands in lent tables before an inquiry: a place that still holds it was not written.
use model::{Edge, Fact};

// A fact and an edge that no inquiry makes.
pub const MARK: Fact = Fact {
    entry: 901,
    brought: 902,
    seen: 903,
    node: 904,
    value: 905,
    state: 906,
    rule: 907,
    source: 908,
    returned: 909,
    span: 910,
};

pub const MARK_EDGE: Edge = Edge { from: 911, to: 912 };

// A node of no recipe: a place of an output that no trace was written to.
pub const MARK_NODE: u32 = 913;
