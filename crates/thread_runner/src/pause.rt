//! What is asked around each job.

/// Is asked before and told after each job, with no lock held.
pub trait Pause {
    /// Whether the job may be run now. Where it may not, a turn is counted, and it is asked again.
    fn before_run(&self, attempt: u64, serial: u64) -> bool;

    /// The job was run.
    fn after_run(&self, attempt: u64, serial: u64);
}

/// Lets each job run at once.
#[derive(Clone, Copy, Debug)]
pub struct NoPause;

impl Pause for NoPause {
    fn before_run(&self, _attempt: u64, _serial: u64) -> bool {
        true
    }

    fn after_run(&self, _attempt: u64, _serial: u64) {}
}
