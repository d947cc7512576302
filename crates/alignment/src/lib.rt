//! The gate of a task: it blocks the inputs whose barrier came, until the barriers of all unmarked
//! inputs have come and the task copies its state, and then tells of which marked inputs
//! (back-edges) the records are logged (Carbone et al. 2015). Proved: what a barrier brings about,
//! and which inputs are blocked and which are logged afterwards, is the gate's table.
//!
//! A [`Gate`] is at rest, aligning for a checkpoint number, or copied for one with some marked
//! inputs still open. What a barrier does is one table, in `specs/Table.antt`. Only the gate's
//! making takes memory.
#![tactic(auto)]

mod gate;
mod input;

pub use gate::Gate;
pub use input::{Effect, Phase};
