// A rule and a watch that answer 0 and no to everything, with about as many values or states as there may be.
ghost use Rattle.std.specs.Prelude.{◌≡◌, ◌+◌, false};

use recipe::Recipe;
use rules::{AccessRule, Watch};

// 65,535 values and states, and so many more.
#[derive(Clone, Copy)]
pub struct Idle {
    pub more: u16,
}

impl Idle {
    fn count(&self) -> u32
        ensures { result ≡ 65535 + self.now.more }
    {
        65535 + u32::from(self.more)
    }
}

impl AccessRule for Idle {
    ghost meaning = { λ i _. record { values = 65535 + i.more; first = λ _. 0; enter = λ _ _ _. 0; pass = λ _ _. false; back = λ _ _ _ _. 0 } };

    fn values(&self, _recipe: &Recipe) -> u32 {
        self.count()
    }

    fn first(&self, _recipe: &Recipe, _entry: u32) -> u32 {
        0
    }

    fn enter(&self, _recipe: &Recipe, _value: u32, _call: u32, _entry: u32) -> u32 {
        0
    }

    fn pass(&self, _recipe: &Recipe, _value: u32, _check: u32) -> bool {
        false
    }

    fn back(&self, _recipe: &Recipe, _value: u32, _call: u32, _returned: u32, _at: u32) -> u32 {
        0
    }
}

impl Watch for Idle {
    ghost watching = { λ i. record { states = 65535 + i.more; start = 0; step = λ _ _. 0; bad = λ _. false } };

    fn states(&self) -> u32 {
        self.count()
    }

    fn start(&self) -> u32 {
        0
    }

    fn step(&self, _state: u32, _mark: u32) -> u32 {
        0
    }

    fn bad(&self, _state: u32) -> bool {
        false
    }
}
