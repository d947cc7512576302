//! The core's calls, under their own names: each does what it does there, and adds nothing to the
//! total.

ghost use Rattle.std.specs.Prelude.{◌≡◌, ◌⊎◌, ◌≤◌, ◌<◌, IsTrue, IfOk, IfErr, OnOk, length, count_by, slice_get};
ghost use Rattle.std.specs.Option.{option_map};
ghost use Rattle.abs_codec.specs.Spelling.{Fits};
ghost use Rattle.commit_sink.specs.Ledger.{committed_rows};
ghost use Rattle.engine.specs.Claimed.{OffersBehind};
ghost use Rattle.engine_model.specs.ExactlyOnce.{IsExactlyOnce};
ghost use Rattle.engine_model.specs.LastCommitted.{committed_of, complete_numbers};
ghost use Rattle.engine_model.specs.Sound.{IsSound};
ghost use Rattle.engine_model.specs.declared.fault.CoreFault.TheVariants as CoreFault;
ghost use Rattle.engine_plain.specs.Plain.{StepsIfOk};
ghost use Rattle.dataflow_core.specs.Calls.{Fails, Restarts, Reads, Injects, Triggers, Persists, PersistsSome, Completes, Commits, Appends};
ghost use Rattle.dataflow_core.specs.Claims.{Refuses, Claims, TakesBarrierUnclaimed};
ghost use Rattle.dataflow_core.specs.CoreState.{claims_after};
ghost use Rattle.dataflow_core.specs.Steps.{IsRestart};
ghost use Rattle.dataflow_model.specs.Machine as machine;
ghost use Rattle.job_graph.specs.Expanded.{is_sink};
ghost use Rattle.thread_runner.specs.Standing.{LeavesClaims, MakesStep, StaysPut, CountsFaults};

use crate::station::Station;
use alignment::Effect;
use claims::Work;
use commit_sink::Transactions;
use dataflow_core::{CoreFault, Job, Persisted, Rules};
use operators::Operator;
use snapshot_store::SnapshotStore;
use source_log::{Partitions, SourceFault};
use std::sync::Wait;
use std::sync::ledger::Ledger;

impl<
    O: Operator,
    S: SnapshotStore,
    X: Transactions,
    P: Partitions<Record = O::Record>,
    L: Ledger,
    R: Wait + Drop,
> Station<O, S, X, P, L, R> {
    /// Whether both devices were new when the core was opened. Then each sink has committed exactly
    /// its output at the moment of its own last committed checkpoint.
    pub fn is_fresh(&self) -> bool
        ensures value { result ≡ self.now.core.engine.is_fresh }
        ensures exact { IsTrue result → IsExactlyOnce ⟦<O as Rules>⟧.lang self.now.core.engine }
    {
        self.core.is_fresh()
    }

    /// The job is down, and what it held is lost.
    pub fn fail(&mut self) -> Result<(), CoreFault>
        ensures ends { Fails self.old.core.engine self.new.core.engine result }
        ensures step { MakesStep self.old self.new ⟦<O as Rules>⟧.all }
        ensures stays { StaysPut self.old self.new ⟦<O as Rules>⟧.lang }
        ensures counted { CountsFaults self.old self.new result }
        ensures claims { LeavesClaims self.old self.new }
    {
        self.core.fail()
    }

    /// The next attempt runs from the last complete checkpoint, or anew, and all claims are
    /// dropped.
    pub fn restart(&mut self) -> Result<Option<u64>, CoreFault>
        ensures ends { Restarts self.old.core.engine self.new.core.engine ⟦<O as Rules>⟧.all
            result }
        ensures step { IsRestart ⟦<O as Rules>⟧.all
            self.old.core.engine self.new.core.engine result }
        ensures counted { CountsFaults self.old self.new result }
        ensures claims { self.new.core ≡ record self.old.core {
          engine = self.new.core.engine;
          claims = claims_after result self.old.core.claims;
        } }
        ensures total { (self.new.total ≡ self.old.total) × (self.new.output ≡ self.old.output) }
    {
        self.core.restart()
    }

    /// Source `task` sends its next record.
    pub fn read(&mut self, task: u32) -> Result<(), CoreFault>
        ensures ends { Reads self.old.core.engine self.new.core.engine
            ⟦<O as Rules>⟧.lang task result }
        ensures step { MakesStep self.old self.new ⟦<O as Rules>⟧.all }
        ensures plain { StepsIfOk result ⟦<O as Rules>⟧.lang (machine.Read task)
            self.old.core.engine self.new.core.engine }
        ensures counted { CountsFaults self.old self.new result }
        ensures claims { LeavesClaims self.old self.new }
    {
        self.core.read(task)
    }

    /// A task claims the record at the head of its input. Its job is run with no lock held, and
    /// what was done of it is handed in by `finish_with`.
    pub fn claim(&mut self, task: u32, input: u32) -> Result<Job<O>, CoreFault>
        ensures ok { IfOk result (λ job. Claims self.old.core task input 1
            ⟦<O as Rules>⟧.lang self.new.core
            job.attempt job.serial job.work) }
        ensures err { IfErr result (λ fault. Refuses self.old.core task input fault
            × (self.new ≡ self.old)) }
        ensures total { (self.new.total ≡ self.old.total) × (self.new.output ≡ self.old.output) }
    {
        self.core.claim(task, input)
    }

    /// The same of so many records of its input, at most.
    pub fn claim_some(&mut self, task: u32, input: u32, most: u32) -> Result<Job<O>, CoreFault>
        requires { 0 < most }
        ensures ok { IfOk result (λ job. Claims self.old.core task input most
            ⟦<O as Rules>⟧.lang self.new.core
            job.attempt job.serial job.work) }
        ensures err { IfErr result (λ fault. Refuses self.old.core task input fault
            × (self.new ≡ self.old)) }
        ensures total { (self.new.total ≡ self.old.total) × (self.new.output ≡ self.old.output) }
    {
        self.core.claim_some(task, input, most)
    }

    /// Offers the work on the records behind the first of a sink's input, in their order and on so
    /// many at most, each of which is due once those before it are taken. What was made of each is
    /// handed in by `accept_with`, or of all by `accept_rows_with`, in that order.
    pub fn offer_behind(
        &self,
        task: u32,
        input: u32,
        most: usize,
    ) -> Result<Vec<Work<O>>, CoreFault>
        ensures { OffersBehind self.now.core.engine task input most result }
    {
        self.core.offer_behind(task, input, most)
    }

    /// A task that holds no claim takes the barrier at the head of its input.
    pub fn take_barrier(&mut self, task: u32, input: u32) -> Result<Effect, CoreFault>
        ensures ends { TakesBarrierUnclaimed self.old.core task input self.new.core result }
        ensures step { MakesStep self.old self.new ⟦<O as Rules>⟧.all }
        ensures stays { StaysPut self.old self.new ⟦<O as Rules>⟧.lang }
        ensures counted { CountsFaults self.old self.new result }
        ensures claims { LeavesClaims self.old self.new }
    {
        self.core.take_barrier(task, input)
    }

    /// A checkpoint begins.
    pub fn trigger(&mut self) -> Result<u64, CoreFault>
        ensures ends { Triggers self.old.core.engine self.new.core.engine result }
        ensures step { MakesStep self.old self.new ⟦<O as Rules>⟧.all }
        ensures stays { StaysPut self.old self.new ⟦<O as Rules>⟧.lang }
        ensures counted { CountsFaults self.old self.new result }
        ensures claims { LeavesClaims self.old self.new }
    {
        self.core.trigger()
    }

    /// Source `task` copies its offset for the pending checkpoint, and sends the barrier.
    pub fn inject(&mut self, task: u32) -> Result<(), CoreFault>
        ensures ends { Injects self.old.core.engine self.new.core.engine task result }
        ensures step { MakesStep self.old self.new ⟦<O as Rules>⟧.all }
        ensures stays { StaysPut self.old self.new ⟦<O as Rules>⟧.lang }
        ensures counted { CountsFaults self.old self.new result }
        ensures claims { LeavesClaims self.old self.new }
    {
        self.core.inject(task)
    }

    /// The part of a task that has copied is put in the store and acknowledged.
    pub fn persist(&mut self, task: u32) -> Result<(), CoreFault>
        ensures ends { Persists self.old.core.engine self.new.core.engine
            ⟦<O as Rules>⟧.spelling task result }
        ensures step { MakesStep self.old self.new ⟦<O as Rules>⟧.all }
        ensures stays { StaysPut self.old self.new ⟦<O as Rules>⟧.lang }
        ensures counted { CountsFaults self.old self.new result }
        ensures claims { LeavesClaims self.old self.new }
    {
        self.core.persist(task)
    }

    /// At most `most` entries of the work on a task's part are done, which nothing shows (`More`);
    /// or none are left, and the part is put in the store and acknowledged (`Done`). It is refused
    /// as `persist`, but for an open log only where no entry is left.
    pub fn persist_some(&mut self, task: u32, most: u32) -> Result<Persisted, CoreFault>
        ensures ends { PersistsSome self.old.core.engine self.new.core.engine
            ⟦<O as Rules>⟧.spelling task result }
        ensures step { MakesStep self.old self.new ⟦<O as Rules>⟧.all }
        ensures stays { StaysPut self.old self.new ⟦<O as Rules>⟧.lang }
        ensures counted { CountsFaults self.old self.new result }
        ensures claims { LeavesClaims self.old self.new }
    {
        self.core.persist_some(task, most)
    }

    /// The pending checkpoint, of which the store has every task's part, becomes complete.
    pub fn complete(&mut self) -> Result<u64, CoreFault>
        ensures ends { Completes self.old.core.engine self.new.core.engine result }
        ensures step { MakesStep self.old self.new ⟦<O as Rules>⟧.all }
        ensures stays { StaysPut self.old self.new ⟦<O as Rules>⟧.lang }
        ensures counted { CountsFaults self.old self.new result }
        ensures claims { LeavesClaims self.old self.new }
    {
        self.core.complete()
    }

    /// The pending transactions of a sink subtask up to the last complete checkpoint are committed.
    pub fn commit(&mut self, sink: u32) -> Result<(), CoreFault>
        ensures ends { Commits self.old.core.engine self.new.core.engine sink result }
        ensures reaches { IsSound ⟦<O as Rules>⟧.all self.old.core.engine
            → OnOk result (length (committed_of self.new.core.engine.ledger sink)
            ≡ length (complete_numbers self.new.core.engine.stored)) }
        ensures step { MakesStep self.old self.new ⟦<O as Rules>⟧.all }
        ensures stays { StaysPut self.old self.new ⟦<O as Rules>⟧.lang }
        ensures counted { CountsFaults self.old self.new result }
        ensures claims { LeavesClaims self.old self.new }
    {
        self.core.commit(sink)
    }

    /// Puts a record last in a partition.
    pub fn append(&mut self, partition: u32, row: O::Record) -> Result<(), SourceFault>
        requires { Fits O.Record.HasSpelling O.Record.spelling row }
        ensures ends { Appends self.old.core.engine self.new.core.engine partition row result }
        ensures sound { IsSound ⟦<O as Rules>⟧.all self.old.core.engine
            → IsSound ⟦<O as Rules>⟧.all self.new.core.engine }
        ensures stays { StaysPut self.old self.new ⟦<O as Rules>⟧.lang }
        ensures claims { LeavesClaims self.old self.new }
    {
        self.core.append(partition, row)
    }

    /// How many records of a sink subtask are committed.
    pub fn committed_len(&self, subtask: u32) -> Result<u64, CoreFault>
        ensures ok { IfOk result (λ len. (subtask
            < count_by is_sink self.now.core.engine.graph.tasks)
            × (len ≡ length (committed_rows self.now.core.engine.ledger subtask))) }
        ensures err { IfErr result (λ fault. (fault ≡ CoreFault.NoSuchTask)
            × (count_by is_sink self.now.core.engine.graph.tasks ≤ subtask)) }
    {
        self.core.committed_len(subtask)
    }

    /// A copy of a committed record of a sink subtask, or `None` past the last.
    pub fn committed(&self, subtask: u32, number: u64) -> Result<Option<Vec<u8>>, CoreFault>
        ensures ok { IfOk result (λ row. (subtask
            < count_by is_sink self.now.core.engine.graph.tasks)
            × (option_map (λ bytes. bytes.items) row
            ≡ slice_get (committed_rows self.now.core.engine.ledger subtask) number)) }
        ensures err { IfErr result (λ fault.
            ((fault ≡ CoreFault.NoSuchTask)
            × (count_by is_sink self.now.core.engine.graph.tasks ≤ subtask))
            ⊎ ((fault ≡ CoreFault.Memory)
            × (subtask < count_by is_sink self.now.core.engine.graph.tasks))) }
    {
        self.core.committed(subtask, number)
    }
}
