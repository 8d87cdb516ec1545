// Steps of a run.
ghost use Rattle.std.specs.Prelude.{◌≡◌, ℕ, List, [], ◌∷◌, ◌++◌, ◌&&◌, length, nat_lt, take, MatchResult};
ghost use Rattle.model.specs.declared.Edge.{Edge};
ghost use Rattle.model.specs.Program.{node_at};
ghost use Rattle.model.specs.Runs.{reads, is_call};
ghost use Rattle.recipe.specs.Recipes.{program};
ghost use Rattle.recipe.specs.Writing.{listed_edges};
ghost use Rattle.rules.specs.Subjects.{setting_of};
ghost use Rattle.walker.specs.Accepted.{Stands, StandsAt, Refuses};
ghost use Rattle.walker.specs.Walking.{has_edge, placed, step_first, step_from, step_answer, step_stack, stand_at};

use crate::Stand;
use crate::leading::has_edge;
use model::Frame;
use recipe::{Edge, Kind, Recipe, Refusal};
use rules::{AccessRule, Subject, Watch};

// Where a run stands that has come to a node with its top frame: the watch has read the node's mark.
fn stand<R: AccessRule, W: Watch>(on: &Subject<R, W>, depth: usize, state: u32, top: Frame) -> Stand
    ensures { result ≡ stand_at (W.watching on.now.watch.now) depth top
        ((W.watching on.now.watch.now).step state (reads (program on.now.recipe.now) top.node)) }
{
    let state = on.step_to(state, top.node);
    Stand {
        depth,
        value: top.value,
        state,
        bad: on.watch.bad(state),
    }
}

// Whether a run with this top frame, at a check, passes it and may go on to a node.
fn passes<R: AccessRule, W: Watch>(on: &Subject<R, W>, edges: &[Edge], top: Frame, to: u32) -> bool
    ensures { let X = setting_of R.meaning W.watching on.now (take 4096 edges.now) in
        result ≡ (X.rule.pass top.value top.node && has_edge X.edges top.node to) }
{
    on.rule.pass(on.recipe, top.value, top.node) && has_edge(on.recipe, edges, top.node, to)
}

// Whether a run with this top frame, at a return, and a call frame below it may come back to a node.
fn returns(recipe: &Recipe, edges: &[Edge], top: Frame, call: Frame, to: u32) -> bool
    ensures { let p = program recipe.now in
        result ≡ (nat_lt top.node (length p.nodes)
        && (is_call (node_at p call.node).kind && has_edge (listed_edges p edges.now) call.node to)) }
{
    top.node < recipe.nodes()
        && recipe.node_at(call.node).kind.is_call()
        && has_edge(recipe, edges, call.node, to)
}

const NO_STEP: Refusal = Refusal::NotAStep { place: 0 };

const NO_ROOM: Refusal = Refusal::StackFull { place: 0 };

// Begins a run at an entry of main. Any other node is not a step, and with no place lent the stack is full, both at place 0; then nothing is written.
pub fn start<R: AccessRule, W: Watch>(
    on: &Subject<R, W>,
    stack: &mut [Frame],
    node: u32,
) -> Result<Stand, Refusal>
    ensures answer { let X = setting_of R.meaning W.watching on.now [] in
        result ≡ step_answer X.program X.watch (step_first X.program X.rule node) (length stack.old) X.watch.start
        node 0 }
    ensures frames { let X = setting_of R.meaning W.watching on.now [] in
        stack.new ≡ step_stack (step_first X.program X.rule node) stack.old }
    ensures told { (es : List Edge) → let X = setting_of R.meaning W.watching on.now [] in
        MatchResult result (Stands X.program es X.rule X.watch (node ∷ []) stack.new)
        (Refuses X.program es X.rule X.watch (node ∷ []) stack.new) }
{
    if !on.recipe.is_entry_of(0, node) {
        return Err(NO_STEP);
    }
    if stack.is_empty() {
        return Err(NO_ROOM);
    }
    let top = Frame {
        node,
        value: on.rule.first(on.recipe, node),
    };
    stack[0] = top;
    Ok(stand(on, 1, on.watch.start(), top))
}

// Goes on to a node, as the kind of the node where the run stands has it. The stack is lent, so how much of it is in use stands beside it.
// A node to which that kind does not lead is not a step, nor is any where the depth is none or more than the stack has places; a call needs one place more than is in use. Refused, both at place 0, it writes nothing.
pub fn go<R: AccessRule, W: Watch>(
    on: &Subject<R, W>,
    edges: &[Edge],
    stack: &mut [Frame],
    depth: usize,
    state: u32,
    node: u32,
) -> Result<Stand, Refusal>
    ensures answer { let X = setting_of R.meaning W.watching on.now (take 4096 edges.now) in
        result ≡ step_answer X.program X.watch (step_from X.program X.edges X.rule stack.old depth node)
        (length stack.old) state node 0 }
    ensures frames { let X = setting_of R.meaning W.watching on.now (take 4096 edges.now) in
        stack.new ≡ step_stack (step_from X.program X.edges X.rule stack.old depth node) stack.old }
    ensures told { let X = setting_of R.meaning W.watching on.now (take 4096 edges.now) in
        (ns : List ℕ) → StandsAt X.program X.edges X.rule X.watch ns stack.old depth state →
        MatchResult result (Stands X.program X.edges X.rule X.watch (ns ++ node ∷ []) stack.new)
        (λ e. Refuses X.program X.edges X.rule X.watch (ns ++ node ∷ []) stack.new (placed e (length ns))) }
{
    if depth == 0 || depth > stack.len() {
        return Err(NO_STEP);
    }
    let recipe = on.recipe;
    let top = stack[depth - 1];
    let depth = match (recipe.node_at(top.node).kind, node) {
        (Kind::Nop, to) if has_edge(recipe, edges, top.node, to) => {
            stack[depth - 1].node = to;
            depth
        }
        (Kind::Check { .. }, to) if passes(on, edges, top, to) => {
            stack[depth - 1].node = to;
            depth
        }
        (Kind::Call { callee, .. }, to) if recipe.is_entry_of(callee, to) => {
            if depth == stack.len() {
                return Err(NO_ROOM);
            }
            stack[depth] = Frame {
                node: to,
                value: on.rule.enter(recipe, top.value, top.node, to),
            };
            depth + 1
        }
        (Kind::Return, to) if depth >= 2 && returns(recipe, edges, top, stack[depth - 2], to) => {
            let call = &mut stack[depth - 2];
            call.value = on
                .rule
                .back(recipe, call.value, call.node, top.value, top.node);
            call.node = to;
            depth - 1
        }
        _ => return Err(NO_STEP),
    };
    Ok(stand(on, depth, state, stack[depth - 1]))
}
