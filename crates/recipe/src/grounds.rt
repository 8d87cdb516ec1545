// The grounds for refusing a file or a call, one named case each.

// Why a call was refused. Its number and its detail are what a user is told.
#[derive(Clone, Copy, PartialEq, Eq, Debug)]
pub enum Refusal {
    // The place at an entry of the table of contents is wrong, counted from 0 as everything in a file is, or the file's length, which counts as entry 4.
    Misplaced { entry: u32 },
    // A count in the table of contents is outside its limits.
    Miscounted { entry: u32 },
    // A method has no nodes or no entry, or the node counts do not sum up.
    BadMethod { method: u32 },
    // A node record breaks its rules.
    BadNode { node: u32 },
    // An edge record breaks its rules.
    BadEdge { edge: u32 },
    // A row has a cell that leads nowhere.
    BadRow { row: u32 },
    // The rule has more than 65,536 values, or the watch more than 65,536 states.
    TooMany,
    // The nodes, values, states or edge places are not as many as at the opening.
    OtherCounts,
    // The edge table is too short for the recipe or longer than 4,096 places, or the fact table longer than 65,536.
    UnfitTable,
    // The pair of nodes that is to be linked is no edge by the rules.
    NotAnEdge,
    // The edge that is to be linked is there already.
    EdgeHeld,
    // The edge table has no place free.
    EdgesFull,
    // The inquiry is full, so it takes no link.
    InquiryFull,
    // The verdict is not unsafe, so there is no trace.
    NotUnsafe,
    // The output is too short for the trace, or its length is the greatest number that is told.
    LongTrace { length: u32 },
    // The node given is no step from where the run stands, or there is none.
    NotAStep { place: usize },
    // The step needs a frame more than the stack has.
    StackFull { place: usize },
    // The output is too short for the file.
    ShortOutput { needed: u32 },
}
