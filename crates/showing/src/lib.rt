// What the programs show alike: sets of rights, and refusals by their numbers.
#![tactic(auto)]

mod phrases;

pub use phrases::{Held, Refused, Rights};
