//! The machine.

ghost use Rattle.std.specs.Prelude.{◌≡◌, length};

use crate::job::{Configuration, Job};

/// A job, and where it is: each task holds something, and each channel its records.
#[derive(Drop)]
pub struct PlainMachine<O, R, K: Ord, S> {
    pub job: Job<O, R>,
    pub configuration: Configuration<R, K, S>,
    ghost all_tasks: { length configuration.tasks.items ≡ length job.tasks.items },
    ghost all_channels: { length configuration.channels.items ≡ length job.channels.items },
}
