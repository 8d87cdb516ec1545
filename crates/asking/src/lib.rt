// Asks an inquiry one request after another, and records what each is answered.
#![tactic(auto)]

mod asking;
mod laws;
mod modelled;
mod saving;

pub use asking::ask;
pub use inquiry::{Reply, Request};
pub use laws::histories_obey_the_law;
pub use modelled::ask_modelled;
pub use saving::write_linked;
