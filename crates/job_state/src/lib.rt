//! What a running job holds in memory: an attempt, without its devices. Proved: each call changes
//! exactly the lists that its contract says, and a refused one changes nothing.
//!
//! An [`Attempt`] is seen as lists: what each task holds, what stands in each channel, each task's
//! gate, from which channels the pending checkpoint's barrier was taken and what was logged of
//! them, each task's copy for that checkpoint, and how far it is. Each call says exactly which of
//! these lists change, and how; a call that is refused changes nothing.
#![tactic(auto)]

mod attempt;
mod barriers;
mod copies;
mod fans;
mod gates;
mod holding;
mod logs;
mod openings;
mod ready;
mod records;
mod sending;
mod spelling;
mod taking;
mod task;
mod tasks;

pub use attempt::Attempt;
pub use holding::Holding;
pub use operator_state::CopyWork;
