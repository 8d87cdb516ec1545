// Judges a file in memory of its own.
ghost use Rattle.std.specs.Prelude.{◌≡◌, length, Ok, Err, MatchResult};
ghost use Rattle.recipe.specs.Format.{Legal};
ghost use Rattle.judging.specs.Judged.{usual, shown, shown_both, judgement_of, JudgedRight, Answers, Tells};
ghost use Rattle.judging.specs.Parts.{nodes_written};
ghost use Rattle.judging.specs.Printed.{verdicts_text, text_of, TextTells};

use crate::{Finding, JudgeError, Judgement, Outcome, Verdicts, judge_in};
use inquiry::Fact;
use recipe::{Edge, Refusal, recipe_of};
use std::alloc::{AllocError, Global};

// The places of the fact table.
const FACTS: usize = 1024;

// As many edges as a recipe can have.
const EDGES: usize = 4096;

// The most nodes of a trace.
const NODES: usize = 1024;

// Memory for one judging: its tables fit every recipe.
#[derive(Drop)]
pub struct Tables {
    facts: Vec<Fact>,
    edges: Vec<Edge>,
    history: Vec<u32>,
    stack: Vec<u32>,
    ghost fact_places: { length facts.items ≡ 1024 },
    ghost edge_places: { length edges.items ≡ 4096 },
    ghost history_places: { length history.items ≡ 1024 },
    ghost stack_places: { length stack.items ≡ 1024 },
}

// An outcome, with the nodes that it says were written to an output.
fn finding(outcome: Outcome, mut output: Vec<u32>) -> Finding
    ensures { shown result ≡ record { report = outcome.report; trace = nodes_written output.items outcome.trace } }
{
    let trace = match outcome.trace {
        Ok(length) => {
            output.truncate(length);
            Ok(output)
        }
        Err(refusal) => Err(refusal),
    };
    Finding {
        report: outcome.report,
        trace,
    }
}

impl Tables {
    // Gets the memory, as its type has it; fails only for want of memory. Judging in it then asks for none.
    pub fn new(heap: Global) -> Result<Tables, AllocError> {
        let facts = vec![in heap; Fact::default(); FACTS]?;
        let edges = vec![in heap; Edge::default(); EDGES]?;
        let history = vec![in heap; 0; NODES]?;
        let stack = vec![in heap; 0; NODES]?;
        Ok(Tables {
            facts,
            edges,
            history,
            stack,
        })
    }

    // Judges a file: fails only where the file is refused, by 1 to 6.
    pub fn judge(self, file: &[u8]) -> Result<Judgement, Refusal>
        ensures answer { MatchResult result (λ j. judgement_of file.now ≡ Ok (shown_both j)) (λ e. judgement_of file.now ≡ Err e) }
        ensures tells { MatchResult result (λ j. JudgedRight usual file.now (Ok (shown_both j))) (λ e. Legal file.now → ⊥) }
    {
        let Tables {
            mut facts,
            mut edges,
            mut history,
            mut stack,
        } = self;
        let outcomes = judge_in(file, &mut facts, &mut edges, &mut history, &mut stack)?;
        Ok(Judgement {
            history: finding(outcomes.history, history),
            stack: finding(outcomes.stack, stack),
        })
    }

    // Judges a file, for its verdicts to be printed.
    pub fn verdicts(self, file: &[u8]) -> Verdicts
        ensures text { verdicts_text result ≡ text_of file.now }
        ensures tells { TextTells file.now (verdicts_text result) }
    {
        let judged = self.judge(file);
        Verdicts { judged }
    }
}

// Judges a file, in memory that it gets once the file is found legal: want of memory is told of no other.
pub fn judge(heap: Global, file: &[u8]) -> Result<Judgement, JudgeError>
    ensures answer { Answers file.now result }
    ensures tells { Tells file.now result }
{
    let _recipe = recipe_of(file)?;
    let tables = Tables::new(heap)?;
    Ok(tables.judge(file)?)
}
