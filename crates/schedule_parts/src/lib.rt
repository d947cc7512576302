//! What a schedule of a run keeps: of each task, which inputs may have something; which tasks are
//! ready, as a set of small numbers; and how far the checkpoint is. Nothing is promised of them, as
//! of the schedule, but that each call ends. Each takes the same time whatever the number of tasks
//! and channels, but those that go over all inputs of a task, or over all sources.
#![tactic(auto)]

mod inputs;
mod rank_set;
mod round;

pub use inputs::{Inputs, Place};
pub use rank_set::RankSet;
pub use round::{Need, Round};
