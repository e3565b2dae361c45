// A lock with its two rings: what calls, and the lines of the drill's input, do to it. Nothing allocates.
#![tactic(auto)]

mod parts;
mod runs;
mod setup;
mod trouble;

pub use parts::{run_call, run_line};
pub use setup::Setup;
pub use trouble::Trouble;
