//! What a worker does: one turn on a core, and the work at its bench. The turn is chosen by the
//! `Turns` of a run (`run_schedule`), and its step is made on the core; a job that is claimed,
//! and a copy that is handed out, lie at the worker's [`Workbench`], to be done with no lock held.
//! Proved: whatever is chosen, a turn keeps what any call keeps (the job stays, a sound engine
//! stays sound, and no committed row is withdrawn), and makes one claim at most.
#![tactic(auto)]

mod bench;
mod turn;

pub use bench::Workbench;
pub use turn::{Next, claim_on, take_turn};
