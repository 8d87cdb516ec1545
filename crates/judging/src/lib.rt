// What a recipe file comes to: an inquiry under each rule, with the watch of the recipe's own rows.
#![tactic(auto)]

mod deciding;
mod errors;
mod showing;
mod statuses;
mod tables;

pub use deciding::judge_in;
pub use errors::JudgeError;
use inquiry::Report;
use recipe::Refusal;
pub use showing::{Named, printed};
pub use statuses::{Status, exit_status};
use std::alloc::Global;
pub use tables::{Tables, judge};

// What an inquiry under one rule comes to: its report, and how many nodes of the trace of the first bad fact were written to the output, or why none were.
#[derive(PartialEq, Eq, Debug, Drop)]
pub struct Outcome {
    pub report: Report,
    pub trace: Result<usize, Refusal>,
}

// What a legal file comes to under each rule, with the traces in lent outputs.
#[derive(PartialEq, Eq, Debug, Drop)]
pub struct Outcomes {
    pub history: Outcome,
    pub stack: Outcome,
}

// An outcome with the nodes of its trace.
#[derive(Drop)]
pub struct Finding {
    pub report: Report,
    pub trace: Result<Vec<u32>, Refusal>,
}

// What a legal file comes to under each rule.
#[derive(Drop)]
pub struct Judgement {
    pub history: Finding,
    pub stack: Finding,
}

// What is printed for a file: what it comes to under each rule, or why it is refused.
#[derive(Drop)]
pub struct Verdicts {
    pub judged: Result<Judgement, Refusal>,
}
