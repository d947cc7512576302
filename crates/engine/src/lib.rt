//! The engine as steps: one call is one event (Carbone et al. 2015, with Flink's two-phase commit
//! at the sinks), or one for each record where a work on several is taken. Proved, of each call:
//! its exact change and each refusal's cause (`ends`), that it is steps of the model's engine
//! (`goes`), one plain step, so many, or none (`plain`, `stays`), withdraws no committed row
//! (`begins`), leaves a sound core sound (`sound`), and counts a device's failure exactly where it
//! is told (`counted`). Of a sound core, after any list of calls: one run of the plain machine has
//! a moment for each complete checkpoint, in order, and each sink has committed exactly its output
//! at the moment of its own last committed checkpoint (`exact`).
//!
//! An [`Engine`] holds a job's graph and operators, its partitions, the snapshot store and the
//! transactions, and, while the job runs, the attempt. What every core keeps is engine_model's
//! `Keeps`: that its data are one state of the checkpoint model's engine, and, of a core that was
//! opened over new devices, that this engine is sound.
#![tactic(auto)]

mod calls;
mod claimed;
mod faults;
mod readers;
mod rows;
mod tasks;

pub use calls::Engine;
pub use claims::Leavings;
pub use engine_model::{CoreFault, Persisted};
pub use engine_steps::DeviceCall;
pub use job_state::CopyWork;
