//! Runs a job over the rows of its inputs, in as many threads as are asked for, and prints the rows
//! that its sinks have committed. Everything is generic over the readers and the writers, so that
//! tests run it in memory. Proved: the core that is run is opened over the graph that the job
//! expands to, its operators, and a log with a partition for each source task; the rows of a sink
//! are printed in the order of commit, each once, whoever of the threads spells them; what a run is
//! refused for is told as itself, and want of memory as such; the exit status is 0 or 1.
#![tactic(auto)]

mod committed;
mod opening;
mod options;
mod printing;
mod refusal;
mod running;

pub use job_input::Input;
pub use opening::JobCore;
pub use options::Options;
pub use refusal::RunRefusal;
pub use running::{run_core, run_job};
pub use thread_runner::{NoPause, Pause, Report, RunFault};
