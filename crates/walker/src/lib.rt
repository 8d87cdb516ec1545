// Walks along a given list of nodes: the frames are in a lent stack.
#![tactic(auto)]

mod leading;
mod modelled;
mod replaying;
mod stands;
mod walking;

pub use modelled::Modelled;
pub use replaying::{replay, replay_modelled};
pub use stands::Stand;
pub use walking::{go, start};
