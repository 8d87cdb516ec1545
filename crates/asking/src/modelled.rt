// Requests under a rule that a transition system models.
ghost use Rattle.std.specs.Prelude.{◌≡◌, length, IfOk};
ghost use Rattle.inquiry.specs.Histories.{opened_on};
ghost use Rattle.asking.specs.Asked.{made_of, report_left, replies_left, facts_left, edges_left, output_left};
ghost use Rattle.asking.specs.Modelled.{RecordModels};

use crate::ask;
use inquiry::{Fact, Reply, Report, Request};
use recipe::{Edge, Refusal};
use rules::{Subject, Watch};
use walker::Modelled;

// Carries out requests as `ask` does: what the replies tell of runs they tell of the traces of the rule's transition system.
pub fn ask_modelled<R: Modelled, W: Watch>(
    on: &Subject<R, W>,
    facts: &mut [Fact],
    edges: &mut [Edge],
    output: &mut [u32],
    requests: &[Request],
    replies: &mut [Result<Reply, Refusal>],
) -> Result<Report, Refusal>
    ensures answer { let C = opened_on R.meaning W.watching on.now (length facts.old) (length edges.old) in result ≡ report_left C (made_of replies.old output.old requests.now) }
    ensures replies { let C = opened_on R.meaning W.watching on.now (length facts.old) (length edges.old) in replies.new ≡ replies_left C (made_of replies.old output.old requests.now) replies.old }
    ensures facts { let C = opened_on R.meaning W.watching on.now (length facts.old) (length edges.old) in facts.new ≡ facts_left C (made_of replies.old output.old requests.now) facts.old }
    ensures edges { let C = opened_on R.meaning W.watching on.now (length facts.old) (length edges.old) in edges.new ≡ edges_left C (made_of replies.old output.old requests.now) edges.old }
    ensures output { let C = opened_on R.meaning W.watching on.now (length facts.old) (length edges.old) in output.new ≡ output_left C (made_of replies.old output.old requests.now) output.old }
    ensures modelled { let C = opened_on R.meaning W.watching on.now (length facts.old) (length edges.old) in IfOk result (RecordModels R.traces C (made_of replies.old output.old requests.now) replies.new output.new) }
{
    ask(on, facts, edges, output, requests, replies)
}
