// Why a file is refused, so that it can be mended: the record that is refused, its values, the byte at which it stands, and the one rule that it breaks.
#![tactic(auto)]

mod broken;
mod bytes;
mod explaining;
mod explanation;
mod words;

pub use explaining::explain;
pub use explanation::{Explanation, Fields, Record, Rule};
