// What may be asked of an open inquiry, and what that is answered: a history of calls is a list of requests.
ghost use Rattle.std.specs.Prelude.{◌≡◌};
ghost use Rattle.inquiry.specs.Histories.{written_by};

use crate::{Dug, Verdict};

// A request.
#[derive(Clone, Copy, PartialEq, Eq, Debug)]
pub enum Request {
    // Work up to so many facts.
    Dig { allowed: u32 },
    // Add an edge.
    Link { from: u32, to: u32 },
    // Say what the facts that are held come to.
    Verdict,
    // Write the trace of the first bad fact to the first places of an output, at most so many.
    Trace { room: u32 },
}

// What a request is answered that is not refused.
#[derive(Clone, Copy, PartialEq, Eq, Debug)]
pub enum Reply {
    // How many facts were finished, and how many are held.
    Dug(Dug),
    // How many places of the edge table are in use.
    Linked { edges: u32 },
    // The verdict.
    Judged(Verdict),
    // How many nodes the trace has.
    Traced { length: u32 },
}

impl Reply {
    // How many nodes were written to the output.
    pub fn written(&self) -> usize
        ensures { result ≡ written_by self.now }
    {
        match *self {
            Reply::Dug(_) | Reply::Linked { .. } | Reply::Judged(_) => 0,
            Reply::Traced { length } => length as usize,
        }
    }
}
