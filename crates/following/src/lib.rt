// Follows a list of nodes through a recipe file, and says in words how each step ends.
#![tactic(auto)]

mod lines;
mod numbers;
mod telling;

pub use telling::{asks_file, told};
