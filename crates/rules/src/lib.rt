// Access rules and watches: two traits, and two implementations of each.
#![tactic(auto)]

mod asking;
mod history;
mod stack;
mod subject;
mod table;
mod traits;
mod wall;

pub use history::History;
pub use stack::StackInspection;
pub use subject::Subject;
pub use table::TableWatch;
pub use traits::{AccessRule, Watch};
pub use wall::WallWatch;
