//! A desk of claimed jobs.

ghost use Rattle.std.specs.Prelude.{◌≡◌, [], None, IfSome, IfNone, slice_set};
ghost use Rattle.dataflow_core.specs.Desks.{job_at};

use crate::jobs::Job;
use operators::Operator;
use std::alloc::Global;
use std::marker::Model;

/// Claimed jobs, by number from 0. A job that was finished has left, and its number is not given
/// again.
#[derive(Drop)]
pub struct Desk<O: Operator> {
    pub(crate) jobs: Vec<Option<Job<O>>>,
}

impl<O: Operator> Model for Desk<O> {
    ghost use Rattle.dataflow_core.specs.Desks.{DeskJobs};

    ghost Value = { DeskJobs O O.Key O.State O.Record };

    ghost view = { λ d. d.jobs.items };
}

impl<O: Operator> Desk<O> {
    /// A desk with no job.
    pub fn new(alloc: Global) -> Self
        ensures { result ≡ [] }
    {
        Desk {
            jobs: Vec::new(alloc),
        }
    }

    /// The job of this number leaves.
    pub(crate) fn take(&mut self, number: u32) -> Option<Job<O>>
        ensures job { result ≡ job_at self.old number }
        ensures some { IfSome result (λ job. self.new ≡ slice_set self.old number None) }
        ensures none { IfNone result (self.new ≡ self.old) }
    {
        let Desk { jobs } = self;
        match jobs.get_mut(number as usize) {
            Some(job) => job.take(),
            None => None,
        }
    }
}
