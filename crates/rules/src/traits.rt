// What an access rule and a watch answer. Each question says three things for every argument: the answer is the meaning's; it is below the count; and what is not asked as it should be is answered with 0, or with no.
ghost use Rattle.std.specs.Prelude.{◌≡◌, ℕ, ◌<◌, ◌≤◌, true, false};
ghost use Rattle.model.specs.Access.{Rule, asks_first, asks_enter, asks_pass, asks_back};
ghost use Rattle.model.specs.Program.{Program};
ghost use Rattle.model.specs.Watches.{Watch as WatchMeaning, asks_step};
ghost use Rattle.recipe.specs.Recipes.{program};

use recipe::Recipe;

// A rule of access: which values a run has, and what becomes of them. It is lent the recipe with each question.
pub trait AccessRule {
    ghost meaning: { Self → Program → Rule };

    // How many values there are; a value is a number below this.
    fn values(&self, recipe: &Recipe) -> u32
        ensures answer { result ≡ (meaning self.now (program recipe.now)).values }
        ensures some { 1 ≤ result };

    // The value at an entry of main.
    fn first(&self, recipe: &Recipe, entry: u32) -> u32
        ensures answer { result ≡ (meaning self.now (program recipe.now)).first entry }
        ensures below { result < (meaning self.now (program recipe.now)).values }
        ensures wrong { asks_first (program recipe.now) entry ≡ false → result ≡ 0 };

    // The value at an entry of the callee, where a call is reached with a value.
    fn enter(&self, recipe: &Recipe, value: u32, call: u32, entry: u32) -> u32
        ensures answer { result ≡ (meaning self.now (program recipe.now)).enter value call entry }
        ensures below { result < (meaning self.now (program recipe.now)).values }
        ensures wrong { asks_enter (program recipe.now) (meaning self.now (program recipe.now)).values value call entry ≡ false → result ≡ 0 };

    // Whether a check is passed with a value.
    fn pass(&self, recipe: &Recipe, value: u32, check: u32) -> bool
        ensures answer { result ≡ (meaning self.now (program recipe.now)).pass value check }
        ensures wrong { asks_pass (program recipe.now) (meaning self.now (program recipe.now)).values value check ≡ false → result ≡ false };

    // The value after a call that was reached with a value, where its callee returned at a node with another.
    fn back(&self, recipe: &Recipe, value: u32, call: u32, returned: u32, at: u32) -> u32
        ensures answer { result ≡ (meaning self.now (program recipe.now)).back value call returned at }
        ensures below { result < (meaning self.now (program recipe.now)).values }
        ensures wrong { asks_back (program recipe.now) (meaning self.now (program recipe.now)).values value call returned at ≡ false → result ≡ 0 };
}

// A watch: a small automaton that reads the marks of a run.
pub trait Watch {
    ghost watching: { Self → WatchMeaning };

    // How many states there are; a state is a number below this.
    fn states(&self) -> u32
        ensures answer { result ≡ (watching self.now).states }
        ensures some { 1 ≤ result };

    // The first state.
    fn start(&self) -> u32
        ensures answer { result ≡ (watching self.now).start }
        ensures below { result < (watching self.now).states };

    // The state after a mark.
    fn step(&self, state: u32, mark: u32) -> u32
        ensures answer { result ≡ (watching self.now).step state mark }
        ensures below { result < (watching self.now).states }
        ensures wrong { asks_step (watching self.now).states state mark ≡ false → result ≡ 0 };

    // Whether a state is bad.
    fn bad(&self, state: u32) -> bool
        ensures answer { result ≡ (watching self.now).bad state }
        ensures wrong { (watching self.now).states ≤ state → result ≡ false };
}
