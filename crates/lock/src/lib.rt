// The lock: a reader-writer lock above any lock word and any wait queue, driven one step at a time.
#![tactic(auto)]

mod archiving;
mod calls;
mod moves;
mod pass;
mod questions;
mod rows;
mod state;
mod waiting;

use state::State;

#[derive(Drop)]
pub struct Lock<W, Q> {
    state: State<W, Q>,
}
