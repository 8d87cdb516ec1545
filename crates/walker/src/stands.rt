// Where a run stands.

// How many frames of the lent stack a run has, its top value, the watch's state, and whether that is bad.
#[derive(Clone, Copy, PartialEq, Eq, Debug)]
pub struct Stand {
    pub depth: usize,
    pub value: u32,
    pub state: u32,
    pub bad: bool,
}
