//! Settling and draining, without claims. `settle` brings the pending checkpoint to its end: every
//! source copies, every task works its inputs up to their barriers, in an order in which each comes
//! behind the senders of its unmarked inputs, and then the marked ones; the parts are put, the
//! checkpoint is completed, and every sink commits. `drain` settles, goes in rounds until no task
//! has a step to make, and settles once more.
//!
//! Proved: where a checkpoint is pending, `settle` completes it and every sink of a sound engine
//! has committed it last, or a device failed, or memory was refused (`ends`); `drain` comes to rest
//! with a complete checkpoint whose cut is at rest, committed last by every sink of a sound engine,
//! which have then committed the whole output of a plain run that has ended, or has made as many
//! steps as there are turns, with a further one possible.
#![tactic(auto)]

mod aligning;
mod draining;
mod injecting;
mod outcomes;
mod putting;
mod settling;
mod taking;

pub use draining::drain;
pub use engine_rounds::Drained;
pub use settling::settle;
