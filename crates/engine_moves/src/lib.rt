//! What moves records and barriers in a running job, beside claimed work: a source reads or copies,
//! and an operator or a sink takes a barrier, each over the attempt and the one device that it
//! uses. Proved: each call ends as `engine_model`'s relations say: the exact change, each refusal's
//! cause, in order (`K4` where the gate blocks the input, and only then `K3`; `K11` and `K12` only
//! where no refusal before them is due), and a device's failure is counted where it is told
//! (`counted`), and only there (`told`).
//!
//! A call ends by what the attempt holds before and after, and the device: it is done, or it is
//! refused and nothing has changed, or the device has failed, before its work or after it. Then
//! what the attempt holds is of no account.
#![tactic(auto)]

mod barriers;
mod reads;

pub use barriers::{inject, operator_barrier, sink_barrier};
pub use reads::{read_next, read_some};
