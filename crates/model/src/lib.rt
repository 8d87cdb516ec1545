// The words of the subject: what a recipe is made of, shared by the code and by the mathematics above it.
#![tactic(auto)]

ghost use Rattle.std.specs.Prelude.{◌≡◌};
ghost use Rattle.model.specs.Program.{is_return};
ghost use Rattle.model.specs.Runs.{is_call};
ghost use Rattle.model.specs.Tables.{start_of, end_of};

mod laws;
mod words;

pub use laws::{
    facts_sum_up_runs, history_agrees, links_add_edges, runs_follow_from_traces, stack_agrees,
    tables_tell_facts, watches_stay_bad, worked_cases,
};

// A method: its rights, right i counting 2^i, and how many nodes it has.
#[derive(Clone, Copy, PartialEq, Eq, Debug)]
pub struct Method {
    pub rights: u32,
    pub nodes: u32,
}

// What a node does.
#[derive(Clone, Copy, PartialEq, Eq, Debug)]
pub enum Kind {
    Nop,
    Call {
        callee: u32,
        grant: u32,
        accept: u32,
        privileged: bool,
    },
    Check {
        required: u32,
    },
    Return,
}

impl Kind {
    // Whether a node of this kind calls a method.
    pub fn is_call(self) -> bool
        ensures { result ≡ is_call self }
    {
        matches!(self, Kind::Call { .. })
    }

    // Whether a node of this kind ends its call.
    pub fn is_return(self) -> bool
        ensures { result ≡ is_return self }
    {
        matches!(self, Kind::Return)
    }
}

// A node: what it does, its mark, and whether a call of its method may begin there.
#[derive(Clone, Copy, PartialEq, Eq, Debug)]
pub struct Node {
    pub kind: Kind,
    pub mark: u32,
    pub entry: bool,
}

// An edge from one node to another, both by number. Edges are ordered by where they leave, and then by where they lead.
#[derive(Clone, Copy, PartialEq, Eq, PartialOrd, Ord, Default, Debug)]
pub struct Edge {
    pub from: u32,
    pub to: u32,
}

// A frame of a run: a node, and the value that the rule of access has there.
#[derive(Clone, Copy, PartialEq, Eq, Default, Debug)]
pub struct Frame {
    pub node: u32,
    pub value: u32,
}

// Where a call begins or has come to: a node, with a value of the rule and a state of the watch.
#[derive(Clone, Copy, PartialEq, Eq, Debug)]
pub struct Point {
    pub node: u32,
    pub value: u32,
    pub state: u32,
}

// A fact, as it stands in its place of a fact table: a call that began at an entry, with a value and a state of the watch, can be at a node, with a value and a state, every inner call having returned.
// Which rule gave it (1 to 4), from which facts by place (from 1, and 0 for none), and how many nodes its stretch has: all plain numbers, since a table of facts is memory of its lender, ten 32-bit numbers a place.
#[derive(Clone, Copy, PartialEq, Eq, Default, Debug)]
pub struct Fact {
    pub entry: u32,
    pub brought: u32,
    pub seen: u32,
    pub node: u32,
    pub value: u32,
    pub state: u32,
    pub rule: u32,
    pub source: u32,
    pub returned: u32,
    pub span: u32,
}

impl Fact {
    // Where the call began.
    pub fn start(&self) -> Point
        ensures { result ≡ start_of self.now }
    {
        Point {
            node: self.entry,
            value: self.brought,
            state: self.seen,
        }
    }

    // Where the call can be.
    pub fn end(&self) -> Point
        ensures { result ≡ end_of self.now }
    {
        Point {
            node: self.node,
            value: self.value,
            state: self.state,
        }
    }
}

// What an inquiry says of a recipe so far.
#[derive(Clone, Copy, PartialEq, Eq, Debug)]
pub enum Verdict {
    // No run leaves the watch bad.
    Safe,
    // Some run does.
    Unsafe,
    // There are more facts than places.
    Full,
    // There are facts to work.
    Unfinished,
}
