//! The channels between the tasks of a job. Proved: which channels each edge stands for, in order,
//! and which lanes a channel takes.
#![tactic(auto)]

mod channel;
mod routes;

pub use channel::{Channel, Route};
pub use routes::channels;
