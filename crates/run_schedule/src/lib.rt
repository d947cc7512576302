//! The turns of a run: which step comes next, when a checkpoint is triggered, when the job is
//! restarted, and how the run ends. Nothing is promised of the choice: every call of the core is
//! right whatever is asked for, and what the schedule forgot is found by a pass over all before a
//! run ends. A choice costs the same whatever the number of tasks and channels.
#![tactic(auto)]

mod fault;
mod schedule;
mod shape;
mod turns;

pub use fault::RunFault;
pub use schedule::{End, HandedOut, Schedule, Step};
pub use schedule_parts::Place;
pub use turns::Turns;
