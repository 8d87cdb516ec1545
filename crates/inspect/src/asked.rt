// What both access rules and the table watch answer to one question, each answer with its phrase.
ghost use Rattle.std.specs.Prelude.{◌≡◌, Some};
ghost use Rattle.model.specs.Access.{history, stack_inspection};
ghost use Rattle.model.specs.Program.{rights_of};
ghost use Rattle.model.specs.Watches.{table_watch};
ghost use Rattle.recipe.specs.Recipes.{program};
ghost use Rattle.inspect.specs.Phrases.{verb_text, at_call_text, at_check_text, going_text};

use recipe::Recipe;
use rules::{AccessRule, History, StackInspection, TableWatch, Watch};
use showing::Rights;
use std::fmt;

const EVERY_RIGHT: u32 = 65535;

// The rights with which each rule enters the callee of a call that is reached with every right.
#[derive(Clone, Copy)]
pub(crate) struct AtCall {
    call: u32,
    history: u32,
    stack: u32,
}

impl AtCall {
    // The entry is one of the callee's.
    pub fn ask(recipe: &Recipe, call: u32, entry: u32) -> AtCall
        ensures { let p = program recipe.now in result ≡ record { call = call; history = (history p).enter 65535 call entry; stack = (stack_inspection p).enter 65535 call entry } }
    {
        AtCall {
            call,
            history: History.enter(recipe, EVERY_RIGHT, call, entry),
            stack: StackInspection.enter(recipe, EVERY_RIGHT, call, entry),
        }
    }
}

impl fmt::Display for AtCall {
    ghost output = { λ a. Some (at_call_text a.call a.history a.stack) };

    fn fmt<W: fmt::Write>(&self, f: &mut fmt::Formatter<W>) -> fmt::Result {
        let call = self.call;
        let history = Rights(self.history);
        let stack = Rights(self.stack);
        write!(
            f,
            "call {call} from every right: history enters with rights {history}, stack inspection with rights {stack}"
        )
    }
}

// Whether each rule passes a check that is reached with the rights of its own method.
#[derive(Clone, Copy)]
pub(crate) struct AtCheck {
    check: u32,
    history: bool,
    stack: bool,
}

// The rights of a node's method; none, if there is no such node.
fn own_rights(recipe: &Recipe, n: u32) -> u32
    ensures { result ≡ rights_of (program recipe.now) n }
{
    let Some(k) = recipe.method_of(n) else {
        return 0;
    };
    match recipe.method(k) {
        Some(method) => method.rights,
        None => 0,
    }
}

impl AtCheck {
    pub fn ask(recipe: &Recipe, check: u32) -> AtCheck
        ensures { let p = program recipe.now in result ≡ record { check = check; history = (history p).pass (rights_of p check) check; stack = (stack_inspection p).pass (rights_of p check) check } }
    {
        let own = own_rights(recipe, check);
        AtCheck {
            check,
            history: History.pass(recipe, own, check),
            stack: StackInspection.pass(recipe, own, check),
        }
    }
}

// What a rule does at a check.
#[derive(Clone, Copy)]
struct Verb(bool);

impl fmt::Display for Verb {
    ghost output = { λ v. Some (verb_text v.0) };

    fn fmt<W: fmt::Write>(&self, f: &mut fmt::Formatter<W>) -> fmt::Result {
        f.write_str(if self.0 { "passes" } else { "stops" })
    }
}

impl fmt::Display for AtCheck {
    ghost output = { λ a. Some (at_check_text a.check a.history a.stack) };

    fn fmt<W: fmt::Write>(&self, f: &mut fmt::Formatter<W>) -> fmt::Result {
        let check = self.check;
        let history = Verb(self.history);
        let stack = Verb(self.stack);
        write!(
            f,
            "check {check} with its method's rights: history {history}, stack inspection {stack}"
        )
    }
}

// Where the table watch goes from a state.
#[derive(Clone, Copy)]
pub(crate) struct Going {
    state: u32,
    next: u32,
    bad: bool,
}

impl Going {
    // On this mark.
    pub fn ask(recipe: &Recipe, state: u32, mark: u32) -> Going
        ensures { let w = table_watch (program recipe.now).rows in result ≡ record { state = state; next = w.step state mark; bad = w.bad (w.step state mark) } }
    {
        let watch = TableWatch { recipe };
        let next = watch.step(state, mark);
        Going {
            state,
            next,
            bad: watch.bad(next),
        }
    }
}

impl fmt::Display for Going {
    ghost output = { λ g. Some (going_text g.state g.next g.bad) };

    fn fmt<W: fmt::Write>(&self, f: &mut fmt::Formatter<W>) -> fmt::Result {
        let Going { state, next, bad } = *self;
        let bad = if bad { " (bad)" } else { "" };
        write!(f, "{state} to {next}{bad}")
    }
}
