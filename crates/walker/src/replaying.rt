// Replays a list of nodes.
ghost use Rattle.std.specs.Prelude.{◌≡◌, ◌≤◌, length, take, is_ok, Decides, MatchResult};
ghost use Rattle.model.specs.Agreement.{RunTrace};
ghost use Rattle.rules.specs.Subjects.{setting_of};
ghost use Rattle.walker.specs.Accepted.{Stands, Refuses, Enough};
ghost use Rattle.walker.specs.Modelled.{TraceAccepted, TraceRefused};
ghost use Rattle.walker.specs.Walking.{placed, replayed};

use crate::{Modelled, Stand, go, start};
use model::Frame;
use recipe::{Edge, Refusal};
use rules::{AccessRule, Subject, Watch};

// The refusal of a step, at the place of its node in a list.
fn placed(refusal: Refusal, place: usize) -> Refusal
    ensures { result ≡ placed refusal place }
{
    match refusal {
        Refusal::NotAStep { .. } => Refusal::NotAStep { place },
        Refusal::StackFull { .. } => Refusal::StackFull { place },
        other => other,
    }
}

// Walks along a list up to its end, or to the first node that is refused.
fn walk_along<R: AccessRule, W: Watch>(
    on: &Subject<R, W>,
    edges: &[Edge],
    stack: &mut [Frame],
    nodes: &[u32],
) -> Result<Stand, Refusal>
    ensures answer { let X = setting_of R.meaning W.watching on.now (take 4096 edges.now) in
        result ≡ (replayed X.program X.edges X.rule X.watch nodes.now stack.old).at }
    ensures frames { let X = setting_of R.meaning W.watching on.now (take 4096 edges.now) in
        stack.new ≡ (replayed X.program X.edges X.rule X.watch nodes.now stack.old).stack }
{
    let Some((first, others)) = nodes.split_first() else {
        return Err(Refusal::NotAStep { place: 0 });
    };
    let mut at = start(on, stack, *first)?;
    for (i, node) in others.iter().enumerate() {
        at = go(on, edges, stack, at.depth, at.state, *node).map_err(|e| placed(e, i + 1))?;
    }
    Ok(at)
}

// Replays a list: what it answers tells of runs. A node that is not a step, or for which the stack has no place, is refused with its place in the list, and an empty list as not a step at place 0; the run up to that node is still in the stack.
pub fn replay<R: AccessRule, W: Watch>(
    on: &Subject<R, W>,
    edges: &[Edge],
    stack: &mut [Frame],
    nodes: &[u32],
) -> Result<Stand, Refusal>
    ensures answer { let X = setting_of R.meaning W.watching on.now (take 4096 edges.now) in
        result ≡ (replayed X.program X.edges X.rule X.watch nodes.now stack.old).at }
    ensures frames { let X = setting_of R.meaning W.watching on.now (take 4096 edges.now) in
        stack.new ≡ (replayed X.program X.edges X.rule X.watch nodes.now stack.old).stack }
    ensures told { let X = setting_of R.meaning W.watching on.now (take 4096 edges.now) in
        MatchResult result (Stands X.program X.edges X.rule X.watch nodes.now stack.new)
        (Refuses X.program X.edges X.rule X.watch nodes.now stack.new) }
    ensures accepts { let X = setting_of R.meaning W.watching on.now (take 4096 edges.now) in
        Enough X.program X.edges X.rule X.watch nodes.now (length stack.old) →
        Decides (is_ok result) (RunTrace X.program X.edges X.rule X.watch nodes.now) }
    ensures enough { let X = setting_of R.meaning W.watching on.now (take 4096 edges.now) in
        length nodes.now ≤ length stack.old →
        Enough X.program X.edges X.rule X.watch nodes.now (length stack.old) }
{
    walk_along(on, edges, stack, nodes)
}

// Replays under a rule that a transition system models. What it accepts is a trace of that system, and with as many places of stack as the list has nodes it accepts every trace. Refused as `replay` is.
pub fn replay_modelled<R: Modelled, W: Watch>(
    on: &Subject<R, W>,
    edges: &[Edge],
    stack: &mut [Frame],
    nodes: &[u32],
) -> Result<Stand, Refusal>
    ensures answer { let X = setting_of R.meaning W.watching on.now (take 4096 edges.now) in
        result ≡ (replayed X.program X.edges X.rule X.watch nodes.now stack.old).at }
    ensures frames { let X = setting_of R.meaning W.watching on.now (take 4096 edges.now) in
        stack.new ≡ (replayed X.program X.edges X.rule X.watch nodes.now stack.old).stack }
    ensures accepts { let X = setting_of R.meaning W.watching on.now (take 4096 edges.now) in
        Enough X.program X.edges X.rule X.watch nodes.now (length stack.old) →
        Decides (is_ok result) (R.traces X.program X.edges nodes.now) }
    ensures decides { let X = setting_of R.meaning W.watching on.now (take 4096 edges.now) in
        length nodes.now ≤ length stack.old →
        Decides (is_ok result) (R.traces X.program X.edges nodes.now) }
    ensures told { let X = setting_of R.meaning W.watching on.now (take 4096 edges.now) in
        MatchResult result (TraceAccepted (R.traces X.program X.edges) X.program X.watch nodes.now)
        (TraceRefused (R.traces X.program X.edges) nodes.now (length stack.old)) }
{
    replay(on, edges, stack, nodes)
}
