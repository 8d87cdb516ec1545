// An inquiry digs for facts until they give a verdict.
#![tactic(auto)]

ghost use Rattle.std.specs.Prelude.{◌≡◌, ℕ, ◌<◌, ◌≤◌, Ok, length, take};
ghost use Rattle.model.specs.Tables.{row_at};
ghost use Rattle.inquiry.specs.Shapes.{Hangs};

mod closing;
mod digging;
mod edgeless;
mod fitting;
mod inquiring;
mod joining;
mod laws;
mod laying;
mod leading;
mod linking;
mod offering;
mod opens;
mod placed;
mod reports;
mod requests;
mod rows;
mod scene;
mod tables;
mod tracing;
mod working;

pub use fitting::fit;
pub use inquiring::inquire;
pub use laws::answers_have_grounds;
pub use model::{Fact, Verdict};
use recipe::Refusal;
pub use reports::{Dug, Report};
pub use requests::{Reply, Request};

// What there is to be of at an opening, and at each dig: nodes, values, states and edge places.
#[derive(Clone, Copy, PartialEq, Eq)]
pub(crate) struct Counts {
    nodes: u32,
    values: u32,
    states: u32,
    places: usize,
}

// What an inquiry was opened with: its counts, and how many of the edge places are in use.
#[derive(Clone, Copy)]
pub(crate) struct Opening {
    counts: Counts,
    used: usize,
}

// An open inquiry over a lent table of facts: how many of its places may be used, how many facts are held and worked, and whether a new fact found no place.
// It must be closed. A void one did not fit at its opening, uses no place, and refuses every call.
// It is flat, with its counts beside the lent table: the borrow checker covers no struct in a struct that gives a lent slice back.
pub struct Inquiry<'t> {
    facts: &'t mut [Fact],
    places: usize,
    held: usize,
    worked: usize,
    full: bool,
    opening: Opening,
    fits: Result<(), Refusal>,
    ghost lent: { places ≤ length facts.now },
    ghost few: { places ≤ 65536 },
    ghost within: { held ≤ places },
    ghost some: { worked ≤ held },
    ghost used: { opening.used ≤ opening.counts.places },
    ghost few_places: { fits ≡ Ok tt → opening.counts.places ≤ 4096 },
    ghost hangs: { (i : ℕ) → i < held → Hangs (take i facts.now) (row_at facts.now i) },
}
