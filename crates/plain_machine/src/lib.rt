//! The plain dataflow machine as a program: slow, and with nothing in it but the machine itself.
//! Proved: each call is the plain machine's step, or says that it is not possible, and a run goes
//! where its moves lead.
//!
//! It runs a job record by record, without barriers, checkpoints or failures, and with all channels
//! copied at each step. Its contract is the machine of `dataflow_model`: `PlainMachine::step` makes
//! exactly the step that a move asks for, or answers that the move is not possible, and
//! `PlainMachine::run` goes where the moves lead. So it says what the sinks of a job are to put
//! out. Jobs worked out by hand run on it (`worked_flows`), and nothing that runs imports it.
#![tactic(auto)]

mod fault;
mod job;
mod machine;
mod plain;

pub use fault::PlainFault;
pub use job::{Channel, Configuration, Job, Move, Route, Share, Task, TaskState};
pub use machine::PlainMachine;
