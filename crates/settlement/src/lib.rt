//! A sink's transactions are settled when its job restarts. Proved: those that are named are
//! committed, the oldest first, every other of the sink that is neither committed nor aborted is
//! aborted, and a new one is open; at a name that may not be committed nothing more is done; what
//! a failure leaves is a beginning of this, and a device's failure is counted where it is told, and
//! only there.
#![tactic(auto)]

mod fault;
mod settle;

pub use fault::SettlementFault;
pub use settle::settle_sink;
