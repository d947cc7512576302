//! What the checkpoints of a running job ask of one device alone: parts are dropped and put, and a
//! sink's oldest transaction is committed. Proved: what each leaves in the device; a device's
//! failure is told, and counted exactly where it is told.
#![tactic(auto)]

mod commits;
mod parts;

pub use commits::commit_oldest;
pub use parts::{PutFault, discard_older, put_part};
