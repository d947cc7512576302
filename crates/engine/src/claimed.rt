//! A task's work in two halves: what is to be done is offered, and what was made of it is taken.

ghost use Rattle.std.specs.Prelude.{◌≡◌, ◌≢◌, ◌<◌, ◌↔◌, ℕ, Err, None, Some, slice_get, IsTrue, MatchOption};
ghost use Rattle.commit_sink.specs.Ledger.{committed_rows};
ghost use Rattle.dataflow_model.specs.Graph.{Begins};
ghost use Rattle.dataflow_model.specs.Machine as machine;
ghost use Rattle.job_graph.specs.declared.role.Role.TheVariants as Role;
ghost use Rattle.engine_model.specs.declared.fault.CoreFault.TheVariants as CoreFault;
ghost use Rattle.engine_model.specs.Calls.{input_at};
ghost use Rattle.engine_model.specs.Goes.{Goes};
ghost use Rattle.engine_model.specs.Sound.{IsSound};
ghost use Rattle.engine_plain.specs.Plain.{StepsOftenIfOk, Stays};
ghost use Rattle.claims.specs.Carried.{given_of, records_of};
ghost use Rattle.claims.specs.Due.{EndsAsking, EndsOffer};
ghost use Rattle.engine.specs.Claimed.{Accepts, AcceptsRows, OffersBehind, StepsSoMany};
ghost use Rattle.engine.specs.Running.{IsCounted, IsSameJob};

use crate::calls::{Engine, leave};
use claims::{Leavings, Room, Work, Worked, accept, accept_rows, channel_of, offer, offer_behind};
use commit_sink::Transactions;
use engine_model::{CoreFault, Rules};
use operators::Operator;
use snapshot_store::SnapshotStore;
use source_log::Partitions;
use std::mem::swap;

impl<O: Operator, S: SnapshotStore, X: Transactions, P: Partitions<Record = O::Record>> Engine<
    O,
    S,
    X,
    P,
> {
    /// How many attempts were made: the number of the one that runs, or that ran last.
    pub fn attempt_number(&self) -> u64
        ensures { result ≡ self.now.attempts }
    {
        self.attempts
    }

    /// Whether the job runs.
    pub fn is_running(&self) -> bool
        ensures { IsTrue result ↔ (self.now.held ≢ None) }
    {
        self.attempt.is_some()
    }

    /// Whether a task is an operator or a sink that has such an input: `K1` where the job is down,
    /// `K2` where it is not.
    pub fn has_input(&self, task: u32, input: u32) -> Result<(), CoreFault>
        ensures { MatchOption self.now.held (result ≡ Err CoreFault.NotRunning)
            (λ _. EndsAsking self.now.graph task input result) }
    {
        if self.attempt.is_none() {
            return Err(CoreFault::NotRunning);
        }
        match channel_of(&self.graph, task, input) {
            Some(_) => Ok(()),
            None => Err(CoreFault::NoSuchTask),
        }
    }

    /// Offers the work that a task is to do at an input now, of so many records at most, and
    /// changes nothing.
    pub fn offer(&self, task: u32, input: u32, most: usize) -> Result<Work<O>, CoreFault>
        requires { 0 < most }
        ensures { MatchOption self.now.held (result ≡ Err CoreFault.NotRunning) (λ h. EndsOffer
            ⟦<O as Rules>⟧.lang self.now.graph self.now.operators task input h most result) }
    {
        self.offer_in(task, input, most, &mut Room::new(self.alloc))
    }

    /// The same, in room that was taken before: what of it is used up is there no more.
    pub fn offer_in(
        &self,
        task: u32,
        input: u32,
        most: usize,
        room: &mut Room<O>,
    ) -> Result<Work<O>, CoreFault>
        requires { 0 < most }
        ensures { MatchOption self.now.held (result ≡ Err CoreFault.NotRunning) (λ h. EndsOffer
            ⟦<O as Rules>⟧.lang self.now.graph self.now.operators task input h most result) }
    {
        let Some(attempt) = &self.attempt else {
            return Err(CoreFault::NotRunning);
        };
        offer(
            self.alloc,
            attempt,
            &self.graph,
            &self.operators,
            task,
            input,
            most,
            room,
        )
    }

    /// Offers the work on the records behind the first of a sink's input, in their order and on so
    /// many at most, each of which is due once those before it are taken, and changes nothing.
    pub fn offer_behind(
        &self,
        task: u32,
        input: u32,
        most: usize,
    ) -> Result<Vec<Work<O>>, CoreFault>
        ensures { OffersBehind self.now task input most result }
    {
        let Some(attempt) = &self.attempt else {
            return Err(CoreFault::NotRunning);
        };
        offer_behind(self.alloc, attempt, &self.graph, task, input, most)
    }

    /// Takes what was made of a task's work: its records are worked in turn. Where that work is not
    /// what the task is to do now, it is refused by `K7`, and where memory was refused for it by
    /// `K11`; then nothing has changed.
    pub fn accept(&mut self, task: u32, input: u32, worked: Worked<O>) -> Result<(), CoreFault>
        ensures ends { Accepts ⟦<O as Rules>⟧.lang self.old self.new task input worked result }
        ensures goes { Goes ⟦<O as Rules>⟧.lang self.old self.new }
        ensures sound { IsSound ⟦<O as Rules>⟧.all self.old → IsSound ⟦<O as Rules>⟧.all self.new }
        ensures begins { (task subtask : ℕ) → slice_get self.old.graph.tasks task
            ≡ Some (Role.Sink subtask) → Begins (committed_rows self.old.ledger subtask)
            (committed_rows self.new.ledger subtask) }
        ensures plain { MatchOption (input_at self.old.graph task input)
            (Stays ⟦<O as Rules>⟧.lang self.old self.new)
            (λ channel. StepsOftenIfOk result (records_of (given_of worked)) ⟦<O as Rules>⟧.lang
            (machine.Work task channel) self.old self.new) }
        ensures counted { IsCounted self.old.faults self.new.faults result }
        ensures same { IsSameJob self.old self.new }
    {
        let Some(attempt) = &mut self.attempt else {
            return Err(CoreFault::NotRunning);
        };
        let outcome = accept(
            attempt,
            &self.graph,
            &self.operators,
            &mut self.transactions,
            task,
            input,
            worked,
            &mut self.leavings,
        );
        leave(&mut self.attempt, outcome)
    }

    /// Takes what was made of the work on several records of a sink, from the first to the last, as
    /// so many calls of `accept`, until one is refused: how many records were taken, and why no
    /// more. `K7` is told where the task is no sink, or may take nothing from the input.
    pub fn accept_rows(
        &mut self,
        task: u32,
        input: u32,
        ahead: Vec<Worked<O>>,
    ) -> (u64, Result<(), CoreFault>)
        ensures ends { AcceptsRows ⟦<O as Rules>⟧.lang self.old self.new task input ahead.items
            result.0 result.1 }
        ensures goes { Goes ⟦<O as Rules>⟧.lang self.old self.new }
        ensures sound { IsSound ⟦<O as Rules>⟧.all self.old → IsSound ⟦<O as Rules>⟧.all self.new }
        ensures begins { (task subtask : ℕ) → slice_get self.old.graph.tasks task
            ≡ Some (Role.Sink subtask) → Begins (committed_rows self.old.ledger subtask)
            (committed_rows self.new.ledger subtask) }
        ensures plain { MatchOption (input_at self.old.graph task input)
            (Stays ⟦<O as Rules>⟧.lang self.old self.new)
            (λ channel. StepsSoMany result.0 ⟦<O as Rules>⟧.lang (machine.Work task channel)
            self.old self.new) }
        ensures counted { IsCounted self.old.faults self.new.faults result.1 }
        ensures same { IsSameJob self.old self.new }
    {
        let Some(attempt) = &mut self.attempt else {
            return (0, Err(CoreFault::NotRunning));
        };
        let (count, outcome) = accept_rows(
            attempt,
            &self.graph,
            &mut self.transactions,
            task,
            input,
            ahead,
        );
        let end = leave(&mut self.attempt, outcome);
        (count, end)
    }

    /// Exchanges what results that were taken have left for these leavings, which were let go: who
    /// gets it lets it go, at any time.
    pub fn swap_leavings(&mut self, leavings: &mut Leavings<O>)
        ensures { self.new ≡ self.old }
    {
        swap(&mut self.leavings, leavings);
    }
}
