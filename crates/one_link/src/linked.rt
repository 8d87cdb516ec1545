// Calls in a row: an inquiry is opened, linked, dug and closed.
ghost use Rattle.std.specs.Prelude.{◌≡◌, Ok};
ghost use Rattle.model.specs.Facts.{RunGoesBad};
ghost use Rattle.one_link.specs.Linked.{linked_with};

use asking::histories_obey_the_law;
use inquiry::{Fact, Inquiry, Verdict};
use recipe::{Edge, Refusal};
use rules::{AccessRule, Subject, Watch};

// The verdict of a recipe with one edge more. What it promises has no word of tables, and follows from the public contracts of the calls.
pub(crate) fn verdict_with<R: AccessRule, W: Watch>(
    on: &Subject<R, W>,
    facts: &mut [Fact],
    edges: &mut [Edge],
    edge: Edge,
) -> Result<Verdict, Refusal>
    ensures no_bad_run { result ≡ Ok Verdict.Safe → RunGoesBad (linked_with R.meaning W.watching on.now edge) → ⊥ }
    ensures bad_run { result ≡ Ok Verdict.Unsafe → RunGoesBad (linked_with R.meaning W.watching on.now edge) }
    ensures decides { result ≡ Ok Verdict.Unfinished → ⊥ }
{
    histories_obey_the_law();
    let mut inquiry = Inquiry::open(on, facts, edges);
    let linked = inquiry.link(on, edges, edge);
    let dug = inquiry.dig(on, edges, u32::MAX);
    let report = inquiry.close(on.watch);
    linked?;
    dug?;
    Ok(report?.verdict)
}
