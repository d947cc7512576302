//! Logs of the marked inputs: what a task takes from a back-edge between its copy and that input's
//! barrier (Carbone et al. 2015, graphs with back-edges). Proved: one list and one open mark a
//! channel, and what each call makes of them.
//!
//! [`Logs`] is one list and one open mark a channel: the log is open until the pending checkpoint's
//! barrier comes from the channel. Room for a record is reserved first, and then a push can't fail.
#![tactic(auto)]

mod log;
mod logs;

pub use logs::Logs;
