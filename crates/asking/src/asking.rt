// Carries out a list of requests on one inquiry.
ghost use Rattle.std.specs.Prelude.{◌≡◌, Ok, List, length, IfOk};
ghost use Rattle.inquiry.specs.Histories.{opened_on};
ghost use Rattle.asking.specs.Asked.{within, made_of, report_left, replies_left, facts_left, edges_left, output_left};
ghost use Rattle.asking.specs.Made.{Made};
ghost use Rattle.asking.specs.Law.{Law};
ghost use Rattle.asking.specs.Recorded.{RecordTells};

use inquiry::{Fact, Inquiry, Reply, Report, Request};
use recipe::{Edge, Refusal};
use rules::{AccessRule, Subject, Watch};

// Makes one request of an open inquiry. A trace goes to the first places of the output, as many as it has room for.
fn make<R: AccessRule, W: Watch>(
    inquiry: &mut Inquiry,
    on: &Subject<R, W>,
    edges: &mut [Edge],
    output: &mut [u32],
    request: Request,
) -> Result<Reply, Refusal>
    ensures { Made R.meaning W.watching on.now (within (length output.old) request) inquiry.old edges.old output.old inquiry.new edges.new output.new result }
{
    Ok(match request {
        Request::Dig { allowed } => Reply::Dug(inquiry.dig(on, edges, allowed)?),
        Request::Link { from, to } => Reply::Linked {
            edges: inquiry.link(on, edges, Edge { from, to })?,
        },
        Request::Verdict => Reply::Judged(inquiry.verdict(on.watch)?),
        Request::Trace { room } => {
            let room = (room as usize).min(output.len());
            Reply::Traced {
                length: inquiry.trace(on.watch, &mut output[..room])?,
            }
        }
    })
}

// Opens an inquiry, makes as many of the requests as there are places for replies, one after another, and closes it.
pub fn ask<R: AccessRule, W: Watch>(
    on: &Subject<R, W>,
    facts: &mut [Fact],
    edges: &mut [Edge],
    output: &mut [u32],
    requests: &[Request],
    replies: &mut [Result<Reply, Refusal>],
) -> Result<Report, Refusal>
    ensures answer { let C = opened_on R.meaning W.watching on.now (length facts.old) (length edges.old) in result ≡ report_left C (made_of replies.old output.old requests.now) }
    ensures replies { let C = opened_on R.meaning W.watching on.now (length facts.old) (length edges.old) in replies.new ≡ replies_left C (made_of replies.old output.old requests.now) replies.old }
    ensures facts { let C = opened_on R.meaning W.watching on.now (length facts.old) (length edges.old) in facts.new ≡ facts_left C (made_of replies.old output.old requests.now) facts.old }
    ensures edges { let C = opened_on R.meaning W.watching on.now (length facts.old) (length edges.old) in edges.new ≡ edges_left C (made_of replies.old output.old requests.now) edges.old }
    ensures output { let C = opened_on R.meaning W.watching on.now (length facts.old) (length edges.old) in output.new ≡ output_left C (made_of replies.old output.old requests.now) output.old }
    ensures law { Law (opened_on R.meaning W.watching on.now (length facts.old) (length edges.old)) }
    ensures told { let C = opened_on R.meaning W.watching on.now (length facts.old) (length edges.old) in IfOk result (RecordTells C (made_of replies.old output.old requests.now) replies.new facts.new output.new) }
{
    let mut inquiry = Inquiry::open(on, facts, edges);
    for (place, request) in requests.iter().take(replies.len()).enumerate() {
        replies[place] = make(&mut inquiry, on, edges, output, *request);
    }
    inquiry.close(on.watch)
}
