// Rules whose runs are those of a transition system, which is written apart from them.
ghost use Rattle.std.specs.Prelude.{ℕ, List};
ghost use Rattle.model.specs.declared.Edge.{Edge};
ghost use Rattle.model.specs.Agreement.{RunTrace};
ghost use Rattle.model.specs.Lawful.{Lawful, EdgesObey};
ghost use Rattle.model.specs.Models.{HistoryTrace, StackTrace};
ghost use Rattle.model.specs.Program.{Program};
ghost use Rattle.model.specs.Watches.{Watch};
ghost use Rattle.model.proofs.Agreeing.{history_agrees, stack_agrees};

use rules::{AccessRule, History, StackInspection};

// A rule of access with the traces that its transition system has.
pub trait Modelled: AccessRule {
    ghost traces: { Program → List Edge → List ℕ → Type 0 };

    // Of a lawful program these are the traces of its runs under the rule, along any edges that obey the rules and whatever the watch.
    ghost agrees: { (rule : Self) (p : Program) (own es : List Edge) (W : Watch) (t : List ℕ) → Lawful p own → EdgesObey p es
        → (traces p es t → RunTrace p es (Self.meaning rule p) W t) × (RunTrace p es (Self.meaning rule p) W t → traces p es t) };
}

// History-based access control.
impl Modelled for History {
    ghost traces = { HistoryTrace };

    ghost agrees = { λ _ p own es W t law obey. history_agrees p own es W t law obey };
}

// Stack inspection.
impl Modelled for StackInspection {
    ghost traces = { StackTrace };

    ghost agrees = { λ _ p own es W t law obey. stack_agrees p own es W t law obey };
}
