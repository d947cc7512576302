//! What a worker has at hand.

use claims::{Leavings, Room, Work, Worked};
use dataflow_core::{CopyWork, Done, Job};
use operators::Operator;
use run_schedule::{HandedOut, Place};
use std::alloc::Global;
use std::mem::replace;

/// A task's copy, to be spelled with no lock held.
#[derive(Drop)]
pub(crate) struct Spelling<O: Operator> {
    pub(crate) copy: HandedOut,
    pub(crate) work: CopyWork<O::Key, O::State>,
}

/// What a worker has at hand, in places that it keeps, so that no job is moved from hand to hand
/// while the lock is held: its job, what was done of it, a copy that it spells, room for the next
/// claim, and what results have left.
#[derive(Drop)]
pub struct Workbench<O: Operator> {
    pub(crate) alloc: Global,
    /// The input of the job's task, or of the one whose job was done last.
    place: Place,
    /// A claimed job, and where its task is a sink, the work on the records behind the job's own.
    job: Option<Job<O>>,
    ahead: Vec<Work<O>>,
    /// What was done of them.
    done: Option<Done<O>>,
    worked: Vec<Worked<O>>,
    spelling: Option<Spelling<O>>,
    /// A copy that was spelled, and whose bytes are left to its task.
    copy: Option<HandedOut>,
    pub(crate) room: Room<O>,
    /// What results have left, to be let go with no lock held.
    pub leavings: Leavings<O>,
}

impl<O: Operator> Workbench<O> {
    /// Nothing. It takes no memory.
    pub fn new(alloc: Global) -> Workbench<O> {
        Workbench {
            alloc,
            place: Place { task: 0, input: 0 },
            job: None,
            ahead: Vec::new(alloc),
            done: None,
            worked: Vec::new(alloc),
            spelling: None,
            copy: None,
            room: Room::new(alloc),
            leavings: Leavings::new(alloc),
        }
    }

    /// A job was claimed from this input.
    pub(crate) fn put_job(&mut self, place: Place, job: Job<O>) {
        self.place = place;
        self.job = Some(job);
    }

    /// This is the work on the records behind the job's own.
    pub(crate) fn put_ahead(&mut self, ahead: Vec<Work<O>>) {
        self.ahead = ahead;
    }

    /// A task's copy was handed out.
    pub(crate) fn put_spelling(&mut self, spelling: Spelling<O>) {
        self.spelling = Some(spelling);
    }

    /// The attempt and the serial of the job, if there is one.
    pub fn ticket(&self) -> Option<(u64, u64)> {
        let job = self.job.as_ref()?;
        Some((job.attempt(), job.serial()))
    }

    /// The job is not done.
    pub fn drop_job(&mut self) {
        self.job = None;
        self.ahead.clear();
    }

    /// Does the job, if there is one. Where memory is refused, what is left of the work behind it
    /// is not done, and its records stay.
    pub fn run(&mut self) {
        let Some(job) = self.job.take() else {
            return;
        };
        self.done = Some(job.run());
        if !self.ahead.is_empty() {
            self.run_ahead();
        }
    }

    fn run_ahead(&mut self) {
        let ahead = replace(&mut self.ahead, Vec::new(self.alloc));
        let _ = self.worked.reserve(ahead.len());
        for work in ahead {
            if self.worked.push(work.run(self.alloc)).is_err() {
                break;
            }
        }
    }

    /// Spells the copy that was handed out, if there is one.
    pub fn spell(&mut self) {
        if let Some(Spelling { copy, work }) = self.spelling.take() {
            work.run(self.alloc);
            self.copy = Some(copy);
        }
    }

    /// The input of the job's task, or of the one whose job was done last.
    pub fn place(&self) -> Place {
        self.place
    }

    /// What was done of a job, if there is something.
    pub fn take_done(&mut self) -> Option<Done<O>> {
        self.done.take()
    }

    /// What was made of the work on the records behind the job's own, if there is some.
    pub fn take_worked(&mut self) -> Option<Vec<Worked<O>>> {
        if self.worked.is_empty() {
            return None;
        }
        Some(replace(&mut self.worked, Vec::new(self.alloc)))
    }

    /// The copy that was spelled, if there is one.
    pub fn take_copy(&mut self) -> Option<HandedOut> {
        self.copy.take()
    }

    /// What is done with no lock held before it is asked for: what results have left is let go, and
    /// room is taken for a claim of so many records.
    pub fn tidy(&mut self, records: u32) {
        self.leavings.let_go();
        self.room.make(records);
    }
}
