// Goes along a list of nodes, and tells of each step.
ghost use Rattle.std.specs.Prelude.{◌≡◌, ℕ, List, ◌++◌, false, map, take, IfOk, OnOk};
ghost use Rattle.std.specs.String.{string_bytes};
ghost use Rattle.recipe.specs.Recipes.{file_of};
ghost use Rattle.rules.specs.Subjects.{setting_of};
ghost use Rattle.following.specs.Right.{Right};
ghost use Rattle.following.specs.Told.{rest_text, walk_text, text_of, asks_file};

use crate::lines::{tell, tell_end};
use crate::numbers::numbers;
use model::Frame;
use recipe::{Edge, Recipe, Refusal, recipe_of};
use rules::{AccessRule, History, StackInspection, Subject, TableWatch, Watch};
use showing::Refused;
use std::alloc::{AllocError, Global};
use walker::{Stand, go, start};

const USAGE: &str = "walk history|stack NODE NODE .. < RECIPE";

// Goes on along a list from where the first step led: a line for each step up to one that is refused, and for a list that is accepted how it ended.
fn walk_on<R: AccessRule, W: Watch>(
    on: &Subject<R, W>,
    edges: &[Edge],
    stack: &mut [Frame],
    first: Result<Stand, Refusal>,
    others: &[u32],
    text: &mut String,
) -> Result<(), AllocError>
    ensures { let X = setting_of R.meaning W.watching on.now (take 4096 edges.now) in
        OnOk result
        (string_bytes text.new ≡ string_bytes text.old ++ rest_text X others.now 1 (record { at = first; stack = stack.old })) }
{
    let mut step = first;
    for (i, node) in others.iter().enumerate() {
        let Ok(at) = step else {
            return Ok(());
        };
        step = go(on, edges, stack, at.depth, at.state, *node);
        tell(text, on.recipe, step, *node, i + 1)?;
    }
    tell_end(text, step)
}

// Goes along a list of nodes under a rule, with the recipe's own edges and the watch of its rows: a line for each step, and how the walk ended.
fn walk<R: AccessRule>(
    heap: Global,
    recipe: &Recipe,
    rule: &R,
    nodes: &[u32],
) -> Result<String, AllocError>
    ensures { IfOk result (λ text. string_bytes text ≡ walk_text (R.meaning rule.now) (file_of recipe.now) nodes.now) }
{
    let Some((first, others)) = nodes.split_first() else {
        let refused = Refused(Refusal::NotAStep { place: 0 });
        return format!(in heap; "{refused}: an empty list is no run");
    };
    let edges: Vec<Edge> = recipe.own_edges().collect(heap)?;
    let on = Subject {
        recipe,
        rule,
        watch: &TableWatch { recipe },
    };
    let mut stack = vec![in heap; Frame::default(); nodes.len()]?;
    let mut text = String::new(heap);
    let step = start(&on, &mut stack, *first);
    tell(&mut text, recipe, step, *first, 0)?;
    walk_on(&on, &edges, &mut stack, step, others, &mut text)?;
    Ok(text)
}

// What is said, as text.
fn said(heap: Global, file: &[u8], words: &[String]) -> Result<String, AllocError>
    ensures { IfOk result (λ text. string_bytes text ≡ text_of file.now (map string_bytes words.now)) }
{
    let Some((rule, words)) = words.split_first() else {
        return String::from_str(heap, USAGE);
    };
    let nodes = match numbers(heap, words)? {
        Ok(nodes) => nodes,
        Err(place) => return format!(in heap;
            "the word at place {place} of the list is no number of a node"
        ),
    };
    let recipe = match recipe_of(file) {
        Ok(recipe) => recipe,
        Err(refusal) => {
            let refused = Refused(refusal);
            return format!(in heap; "{refused}: this is no recipe file");
        }
    };
    // each arm is one generic function at its rule: a `dyn` rule would need the same match
    match rule.as_str() {
        "history" => walk(heap, &recipe, &History, &nodes),
        "stack" => walk(heap, &recipe, &StackInspection, &nodes),
        _ => String::from_str(heap, USAGE),
    }
}

// What is said of a recipe file and the words of a command, a rule's name and then numbers of nodes: the walk under that rule, or what is wrong. Refused for want of memory alone.
pub fn told(heap: Global, file: &[u8], words: &[String]) -> Result<String, AllocError>
    ensures answer { IfOk result (λ text. string_bytes text ≡ text_of file.now (map string_bytes words.now)) }
    ensures right { IfOk result (λ text. Right file.now (map string_bytes words.now) (string_bytes text)) }
{
    said(heap, file, words)
}

// Whether what is said of these words hangs on a file: there is a rule's name, and each word behind it is a number of a node. Where it does not, none has to be read. Refused for want of memory alone.
pub fn asks_file(heap: Global, words: &[String]) -> Result<bool, AllocError>
    ensures answer { IfOk result (λ asks. asks ≡ asks_file (map string_bytes words.now)) }
    ensures alike { IfOk result (λ asks. asks ≡ false → (bs cs : List ℕ) → text_of bs (map string_bytes words.now) ≡ text_of cs (map string_bytes words.now)) }
{
    let Some((_rule, words)) = words.split_first() else {
        return Ok(false);
    };
    Ok(numbers(heap, words)?.is_ok())
}
