//! The core: an engine, and the claims on its records. A claim is a task's hold on the first
//! records of an input, while their result is worked out elsewhere, with no lock held; it moves
//! nothing in the plain machine. Proved, of each call: its exact change and each refusal's cause
//! (`ends`); that it is steps of the model's engine, keeps the job, leaves a sound core sound and
//! withdraws no committed row (`step`); that it is one plain step, or one for each record of a
//! claim (`plain`), or none (`stays`); that a device's failure is counted exactly where it is told
//! (`counted`); and what becomes of the claims (`claims`). A result is taken exactly where its work
//! is what the task would do now (`K7` where not): by `finish` where its attempt and serial are
//! those of a claim that is held now (`K6` where not), and by `accept`, with no ticket, where its
//! task holds no claim (`K5` where it does). A core over new devices is exactly once, whatever
//! calls were made on it (`is_fresh`).
//!
//! A task's part is put in the store in one call (`persist`), or the work on it is done some
//! entries a call, between other calls (`persist_some`); a part's bytes are the same.
//!
//! `settle` and `drain` make many steps in one call, without claims: `settle` completes the pending
//! checkpoint, and is refused only where memory is or a device fails; `drain` brings the job to
//! rest, with a last checkpoint that every sink commits, or spends its turns.
//!
//! # An example
//!
//! A caller starts a job that is down, and brings it to its end.
//!
//! ```
//! let started = core.restart();
//! core.is_fresh();
//! match started {
//!     Ok(_) => {}
//!     Err(fault) => return Err(fault),
//! }
//! let ended = core.drain(turns);
//! core.is_fresh();
//! ended
//! ```
//!
//! This is the body of `end_job` in `ended_jobs` (src/lib.rt). Proved of it, from the clauses of
//! these calls alone: where the core was opened over new devices (`fresh`), what its sinks have
//! committed is exactly once, however that ends (`exact`).
#![tactic(auto)]

mod calls;
mod claiming;
mod desks;
mod faults;
mod held;
mod jobs;
mod replies;
mod rows;
mod runs;
mod settling;

pub use calls::Core;
pub use desks::Desk;
pub use engine::{CopyWork, CoreFault, DeviceCall, Persisted};
pub use engine_model::Rules;
pub use engine_settling::Drained;
pub use engine_steps::Step;
pub use held::Claim;
pub use jobs::{Done, Job};
pub use replies::Reply;
