//! The pending checkpoint and who has acknowledged it.

ghost use Rattle.std.specs.Prelude.{◌≡◌, ◌<◌, ◌↔◌, length, IsTrue, OnOk, OnErr, IfOk};
ghost use Rattle.coordinator.specs.Coordinator.{IsReady, at_first, has_acked, ok_unless, start_refusal, ack_refusal, complete_refusal, started, acknowledged, completed};

use crate::fault::CoordinatorFault;
use abs_codec::NoMemory;
use std::alloc::Global;
use std::marker::Model;

/// Which checkpoint is pending, which tasks have acknowledged it, and which was completed last.
#[derive(Drop)]
pub struct Coordinator {
    pending: Option<u64>,
    acked: Vec<bool>,
    missing: usize,
    last_complete: Option<u64>,
}

impl Model for Coordinator {
    ghost use Rattle.std.specs.Prelude.{◌≡◌, count_by, not};
    ghost use Rattle.coordinator.specs.Coordinator.{Coordination};

    ghost Value = { Coordination };

    ghost view = { λ c. record {
      pending = c.pending;
      acked = c.acked.items;
      last_complete = c.last_complete;
    } };

    // How many tasks have yet to acknowledge the pending number.
    ghost invariant = { λ c. c.missing ≡ count_by not c.acked.items };
}

impl Coordinator {
    /// A coordinator of so many tasks, with no checkpoint yet.
    pub fn new(alloc: Global, tasks: u32) -> Result<Self, NoMemory>
        ensures { IfOk result (λ c. c ≡ at_first tasks) }
    {
        let missing = tasks as usize;
        let acked = Vec::from_elem(alloc, false, missing)?;
        Ok(Coordinator {
            pending: None,
            acked,
            missing,
            last_complete: None,
        })
    }

    /// The same with another last complete number, as after a restart.
    pub fn with_last_complete(mut self, number: Option<u64>) -> Self
        ensures { result ≡ record self { last_complete = number } }
    {
        self.last_complete = number;
        self
    }

    /// The number of the checkpoint that is pending.
    pub fn pending(&self) -> Option<u64>
        ensures { result ≡ self.now.pending }
    {
        self.pending
    }

    /// The number that was completed last.
    pub fn last_complete(&self) -> Option<u64>
        ensures { result ≡ self.now.last_complete }
    {
        self.last_complete
    }

    /// Whether a checkpoint is pending and the task has acknowledged it.
    pub fn has_acked(&self, task: u32) -> bool
        requires { task < length self.now.acked }
        ensures { result ≡ has_acked self.now task }
    {
        self.pending.is_some() && self.acked[task as usize]
    }

    /// Whether a checkpoint is pending and every task has acknowledged it.
    pub fn ready(&self) -> bool
        ensures { IsTrue result ↔ IsReady self.now }
    {
        self.pending.is_some() && self.missing == 0
    }

    /// A checkpoint is pending from now on, acknowledged by no task.
    pub fn start(&mut self, number: u64) -> Result<(), CoordinatorFault>
        ensures answer { result ≡ ok_unless (start_refusal self.old) }
        ensures ok { OnOk result (self.new ≡ started self.old number) }
        ensures err { OnErr result (self.new ≡ self.old) }
    {
        if self.pending.is_some() {
            return Err(CoordinatorFault::AlreadyPending);
        }
        self.acked.fill(false);
        self.missing = self.acked.len();
        self.pending = Some(number);
        Ok(())
    }

    /// The task acknowledges the pending checkpoint.
    pub fn ack(&mut self, number: u64, task: u32) -> Result<(), CoordinatorFault>
        requires { task < length self.old.acked }
        ensures answer { result ≡ ok_unless (ack_refusal self.old number task) }
        ensures ok { OnOk result (self.new ≡ acknowledged self.old task) }
        ensures err { OnErr result (self.new ≡ self.old) }
    {
        if self.pending != Some(number) {
            return Err(CoordinatorFault::NotPending);
        }
        if self.acked[task as usize] {
            return Err(CoordinatorFault::AlreadyAcked);
        }
        self.acked[task as usize] = true;
        self.missing -= 1;
        Ok(())
    }

    /// The pending checkpoint is complete.
    #[tactic(auto, using(crate::proofs::Counts::count_rules))]
    pub fn complete(&mut self, number: u64) -> Result<(), CoordinatorFault>
        ensures answer { result ≡ ok_unless (complete_refusal self.old number) }
        ensures ok { OnOk result (self.new ≡ completed self.old number) }
        ensures err { OnErr result (self.new ≡ self.old) }
    {
        if self.pending != Some(number) {
            return Err(CoordinatorFault::NotPending);
        }
        if self.missing > 0 {
            return Err(CoordinatorFault::NotAllAcked);
        }
        self.pending = None;
        self.last_complete = Some(number);
        Ok(())
    }
}
