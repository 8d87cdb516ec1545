// What a dig and a closed inquiry answer.
use model::Verdict;

// A dig: how many facts it finished, and how many are held then.
#[derive(Clone, Copy, PartialEq, Eq, Debug)]
pub struct Dug {
    pub finished: u32,
    pub held: u32,
}

// A closed inquiry: its verdict, and how many facts it held and had worked.
#[derive(PartialEq, Eq, Debug, Drop)]
pub struct Report {
    pub verdict: Verdict,
    pub held: u32,
    pub worked: u32,
}
