//! A running job's checkpoints on its devices: one begins, its parts are put, it is complete, and
//! its transactions are committed, each over the attempt and the one device that it uses. Proved:
//! each call ends as `engine_model`'s relations say: the exact change, each refusal's cause, in
//! order (`K11` and `K12` only where no refusal before them is due), and a device's failure is
//! counted where it is told (`counted`), and only there (`told`); what is put is the spelling of
//! the task's copy with its logs, and is read again (`readable`).
//!
//! A call ends by what the attempt holds before and after, and the device: it is done, or it is
//! refused and nothing has changed, or the device has failed, before its work or after it. Then
//! what the attempt holds is of no account.
#![tactic(auto)]

mod checkpoints;
mod commits;

pub use checkpoints::{complete, persist, persist_some, trigger};
pub use commits::commit;
