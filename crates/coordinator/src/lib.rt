//! The coordinator of checkpoints: at most one checkpoint is pending, each task acknowledges it
//! once, and it is complete when every task has acknowledged it (Carbone et al. 2015). Proved:
//! ready exactly when every task has acknowledged; each refusal by its cause, in order.
//!
//! A [`Coordinator`] is a number of tasks, the pending checkpoint with what each task has said, and
//! the last complete number. Only its making takes memory.
#![tactic(auto)]

mod coordinator_state;
mod fault;

pub use coordinator_state::Coordinator;
pub use fault::CoordinatorFault;
