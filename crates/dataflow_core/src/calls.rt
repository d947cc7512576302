//! The core, and the calls that leave its claims.

ghost use Rattle.std.specs.Prelude.{◌≡◌, ◌⊎◌, ◌+◌, ◌↔◌, ◌≤◌, ◌<◌, ℕ, List, None, Some, [], true, length, count_by, slice_get, IsTrue, OnOk, IfOk, IfErr, MatchOption};
ghost use Rattle.std.specs.Option.{option_map};
ghost use Rattle.abs_codec.specs.Spelling.{Fits};
ghost use Rattle.checkpoint_model.specs.Cuts.{IsReachedCut};
ghost use Rattle.commit_sink.specs.Ledger as ledgers;
ghost use Rattle.commit_sink.specs.Ledger.{committed_rows};
ghost use Rattle.commit_sink.specs.Runs.{IsRunFrom};
ghost use Rattle.dataflow_model.specs.Machine as machine;
ghost use Rattle.job_graph.specs.Expanded.{is_source, is_sink};
ghost use Rattle.job_graph.specs.PlainGraph.{HaveOperators};
ghost use Rattle.engine_lines.specs.Lines.{IsLine, CommitsABeginning};
ghost use Rattle.engine_lines.specs.Line.{applied};
ghost use Rattle.snapshot_store.specs.Store as stores;
ghost use Rattle.engine_model.specs.CompleteCut.{HasTheCut};
ghost use Rattle.engine_model.specs.ExactlyOnce.{IsExactlyOnce};
ghost use Rattle.engine_model.specs.Keeps.{Keeps};
ghost use Rattle.engine_model.specs.LastCommitted.{committed_of, complete_numbers};
ghost use Rattle.engine_model.specs.Sound.{IsSound, AreLegal, HaveGrown};
ghost use Rattle.engine_model.specs.View.{job_of, devices_of};
ghost use Rattle.engine_model.specs.declared.fault.CoreFault.TheVariants as CoreFault;
ghost use Rattle.engine_plain.specs.Plain.{StepsIfOk, Stays};
ghost use Rattle.engine.specs.Claimed.{StepsSoMany};
ghost use Rattle.engine.specs.Readers.{HasHead};
ghost use Rattle.engine.specs.Reading.{ReadsSome};
ghost use Rattle.engine.specs.Running.{IsCounted};
ghost use Rattle.dataflow_core.specs.Calls.{Fails, Restarts, Reads, Injects, Triggers, Persists, PersistsSome, Completes, Commits, Appends};
ghost use Rattle.dataflow_core.specs.CoreState.{claims_after};
ghost use Rattle.dataflow_core.specs.Steps.{IsStep, IsRestart};

use crate::held::{Claim, drop_claims};
use abs_codec::Bytes;
use commit_sink::Transactions;
use engine::{CopyWork, CoreFault, Engine, Persisted};
use engine_model::Rules;
use job_graph::Graph;
use operators::Operator;
use snapshot_store::SnapshotStore;
use source_log::{Partitions, SourceFault};
use std::alloc::Global;
use std::marker::Model;

/// A job with its devices, and the claims on its records.
#[derive(Drop)]
pub struct Core<O: Operator, S: SnapshotStore, X: Transactions, P: Partitions<Record = O::Record>> {
    pub(crate) alloc: Global,
    pub(crate) engine: Engine<O, S, X, P>,
    pub(crate) claims: Vec<Claim>,
    /// How many claims were made, over all attempts: at most 2^63.
    pub(crate) serials: u64,
}

impl<O: Operator, S: SnapshotStore, X: Transactions, P: Partitions<Record = O::Record>> Model
    for Core<O, S, X, P> {
    ghost use Rattle.std.specs.Prelude.{◌≤◌, ◌<◌, ◌^◌, length};
    ghost use Rattle.std.specs.Coded.{codes};
    ghost use Rattle.std.specs.List.{All};
    ghost use Rattle.snapshot_store.specs.Store.{stored_code};
    ghost use Rattle.dataflow_core.specs.CoreState.{CoreState};

    ghost Value = { CoreState O O.Record O.Key O.State };

    ghost coded = { Prim.hlevel (codes, stored_code) };

    ghost view = { λ c. record {
      engine = c.engine;
      claims = c.claims.items;
      serials = c.serials;
    } };

    ghost invariant = { λ c. (c.serials ≤ 2 ^ 63) × (length c.claims.items ≤ c.serials)
        × All (λ claim. claim.serial < c.serials) c.claims.items };
}

impl<O: Operator, S: SnapshotStore, X: Transactions, P: Partitions<Record = O::Record>> Core<
    O,
    S,
    X,
    P,
> {
    /// A job that is down, over these devices, with no attempt and no claim made. Over legal
    /// devices, as new ones are, and those that a sound core has handed out, though the partitions
    /// may have grown since, it is sound.
    pub fn open(
        alloc: Global,
        graph: Graph,
        operators: Vec<O>,
        log: P,
        store: S,
        transactions: X,
    ) -> Self
        requires operators { HaveOperators graph operators.items }
        requires partitions { length (P.records log) ≡ count_by is_source graph.tasks }
        requires tasks { (S.state store).tasks ≡ length graph.tasks }
        requires subtasks { (X.state transactions).subtasks ≡ count_by is_sink graph.tasks }
        ensures down { result.engine ≡ record {
          graph = graph;
          operators = operators.items;
          partitions = P.records log;
          stored = S.state store;
          ledger = X.state transactions;
          held = None;
          is_fresh = result.engine.is_fresh;
          faults = P.fault_count log + S.fault_count store + X.fault_count transactions;
          attempts = 0;
        } }
        ensures claims { (result.claims ≡ []) × (result.serials ≡ 0) }
        ensures legal { (former : List (List O.Record)) → HaveGrown former (P.records log)
            → AreLegal ⟦<O as Rules>⟧.all graph operators.items former
            (S.state store) (X.state transactions)
            → IsSound ⟦<O as Rules>⟧.all result.engine }
        ensures fresh { IsTrue result.engine.is_fresh
            ↔ ((S.state store ≡ stores.blank (length graph.tasks))
            × (X.state transactions ≡ ledgers.blank (count_by is_sink graph.tasks))) }
    {
        let engine = Engine::open(alloc, graph, operators, log, store, transactions);
        Core {
            alloc,
            engine,
            claims: Vec::new(alloc),
            serials: 0,
        }
    }

    /// Whether both devices were new when the core was opened. No call changes it. What every core
    /// keeps is handed out (`kept`): among it, that the last complete number of a running job is
    /// the store's, and that what a commit takes is of a complete checkpoint. Of a core over new
    /// devices one run of the plain machine, without barriers, checkpoints or failures, has a
    /// moment for each complete checkpoint, in order, and the rows that each sink has committed, as
    /// `committed` answers them, are exactly its output at the moment of its own last committed
    /// checkpoint; on a line, what the operator makes of a beginning of the partition.
    pub fn is_fresh(&self) -> bool
        ensures value { result ≡ self.now.engine.is_fresh }
        ensures kept { Keeps ⟦<O as Rules>⟧.all self.now.engine }
        ensures sound { IsTrue result → IsSound ⟦<O as Rules>⟧.all self.now.engine }
        ensures exact { IsTrue result → IsExactlyOnce ⟦<O as Rules>⟧.lang self.now.engine }
        ensures line { IsTrue result → (operator : O) → IsLine self.now.engine.graph
            → slice_get self.now.engine.operators 0 ≡ Some operator
            → CommitsABeginning ⟦<O as Rules>⟧.lang self.now.engine
            (λ rows. applied O.meaning operator rows) }
    {
        self.engine.is_fresh()
    }

    /// The job is down, and what it held is lost.
    pub fn fail(&mut self) -> Result<(), CoreFault>
        ensures ends { Fails self.old.engine self.new.engine result }
        ensures step { IsStep ⟦<O as Rules>⟧.all self.old.engine self.new.engine }
        ensures stays { Stays ⟦<O as Rules>⟧.lang self.old.engine self.new.engine }
        ensures counted { IsCounted self.old.engine.faults self.new.engine.faults result }
        ensures claims { self.new ≡ record self.old { engine = self.new.engine } }
    {
        let Core { engine, .. } = self;
        engine.fail()
    }

    /// The next attempt runs from the last complete checkpoint, whose number is answered, or anew
    /// where there is none, and all claims are dropped. Each sink has committed the transactions
    /// that its part names, all others that were open or pre-committed are aborted, and a new one
    /// is open. A refused restart leaves the job down, with its claims; transactions may be settled
    /// in part, and the next one does the rest. Attempts have numbers below 2^63.
    pub fn restart(&mut self) -> Result<Option<u64>, CoreFault>
        ensures ends { Restarts self.old.engine self.new.engine ⟦<O as Rules>⟧.all result }
        ensures step { IsRestart ⟦<O as Rules>⟧.all self.old.engine self.new.engine result }
        ensures counted { IsCounted self.old.engine.faults self.new.engine.faults result }
        ensures claims { self.new ≡ record self.old {
          engine = self.new.engine;
          claims = claims_after result self.old.claims;
        } }
    {
        let Core { engine, claims, .. } = self;
        let outcome = engine.restart();
        drop_claims(claims, &outcome);
        outcome
    }

    /// Source `task` sends its next record.
    pub fn read(&mut self, task: u32) -> Result<(), CoreFault>
        ensures ends { Reads self.old.engine self.new.engine ⟦<O as Rules>⟧.lang task result }
        ensures step { IsStep ⟦<O as Rules>⟧.all self.old.engine self.new.engine }
        ensures plain { StepsIfOk result ⟦<O as Rules>⟧.lang (machine.Read task) self.old.engine
            self.new.engine }
        ensures counted { IsCounted self.old.engine.faults self.new.engine.faults result }
        ensures claims { self.new ≡ record self.old { engine = self.new.engine } }
    {
        let Core { engine, .. } = self;
        engine.read(task)
    }

    /// Source `task` sends its next records, one after another and so many at most, as so many
    /// calls of `read`, until one is refused: how many it has sent, and why no more.
    pub fn read_some(&mut self, task: u32, most: u32) -> (u32, Result<(), CoreFault>)
        requires { 0 < most }
        ensures ends { ReadsSome ⟦<O as Rules>⟧.all self.old.engine self.new.engine task most
            result.0 result.1 }
        ensures step { IsStep ⟦<O as Rules>⟧.all self.old.engine self.new.engine }
        ensures plain { StepsSoMany result.0 ⟦<O as Rules>⟧.lang (machine.Read task)
            self.old.engine self.new.engine }
        ensures counted { IsCounted self.old.engine.faults self.new.engine.faults result.1 }
        ensures claims { self.new ≡ record self.old { engine = self.new.engine } }
    {
        let Core { engine, .. } = self;
        engine.read_some(task, most)
    }

    /// Source `task` copies its offset for the pending checkpoint, and sends the barrier.
    pub fn inject(&mut self, task: u32) -> Result<(), CoreFault>
        ensures ends { Injects self.old.engine self.new.engine task result }
        ensures step { IsStep ⟦<O as Rules>⟧.all self.old.engine self.new.engine }
        ensures stays { Stays ⟦<O as Rules>⟧.lang self.old.engine self.new.engine }
        ensures counted { IsCounted self.old.engine.faults self.new.engine.faults result }
        ensures claims { self.new ≡ record self.old { engine = self.new.engine } }
    {
        let Core { engine, .. } = self;
        engine.inject(task)
    }

    /// A checkpoint begins, under a number that was never used. The parts below the last complete
    /// number are discarded. It takes no memory.
    pub fn trigger(&mut self) -> Result<u64, CoreFault>
        ensures ends { Triggers self.old.engine self.new.engine result }
        ensures step { IsStep ⟦<O as Rules>⟧.all self.old.engine self.new.engine }
        ensures stays { Stays ⟦<O as Rules>⟧.lang self.old.engine self.new.engine }
        ensures counted { IsCounted self.old.engine.faults self.new.engine.faults result }
        ensures claims { self.new ≡ record self.old { engine = self.new.engine } }
    {
        let Core { engine, .. } = self;
        engine.trigger()
    }

    /// The part of a task that has copied is put in the store and acknowledged.
    pub fn persist(&mut self, task: u32) -> Result<(), CoreFault>
        ensures ends { Persists self.old.engine self.new.engine
            ⟦<O as Rules>⟧.spelling task result }
        ensures step { IsStep ⟦<O as Rules>⟧.all self.old.engine self.new.engine }
        ensures stays { Stays ⟦<O as Rules>⟧.lang self.old.engine self.new.engine }
        ensures counted { IsCounted self.old.engine.faults self.new.engine.faults result }
        ensures claims { self.new ≡ record self.old { engine = self.new.engine } }
    {
        let Core { engine, .. } = self;
        engine.persist(task)
    }

    /// Hands out the work on at most `most` of the next entries of an operator's copy, to be done
    /// by anyone while nothing is held, where that is enough to be worth it, and none is handed
    /// out. `persist_some` takes what comes of it, as work that was done (`More`); where nothing
    /// does, it does the work itself.
    pub fn hand_out(&mut self, task: u32, most: u32) -> Option<CopyWork<O::Key, O::State>>
        ensures { self.new ≡ self.old }
    {
        let Core { engine, .. } = self;
        engine.hand_out(task, most)
    }

    /// At most `most` entries of the work on a task's part are done, which nothing shows (`More`);
    /// or none are left, and the part is put in the store and acknowledged (`Done`). It is refused
    /// as `persist`, but for an open log only where no entry is left.
    pub fn persist_some(&mut self, task: u32, most: u32) -> Result<Persisted, CoreFault>
        ensures ends { PersistsSome self.old.engine self.new.engine
            ⟦<O as Rules>⟧.spelling task result }
        ensures step { IsStep ⟦<O as Rules>⟧.all self.old.engine self.new.engine }
        ensures stays { Stays ⟦<O as Rules>⟧.lang self.old.engine self.new.engine }
        ensures counted { IsCounted self.old.engine.faults self.new.engine.faults result }
        ensures claims { self.new ≡ record self.old { engine = self.new.engine } }
    {
        let Core { engine, .. } = self;
        engine.persist_some(task, most)
    }

    /// The pending checkpoint, of which the store has every task's part, becomes complete: the
    /// parts say the cut that the attempt has made. Of a sound core a plain run comes to that cut,
    /// where each sink's output is what it has committed or has pre-committed for a complete
    /// checkpoint. It takes no memory.
    pub fn complete(&mut self) -> Result<u64, CoreFault>
        ensures ends { Completes self.old.engine self.new.engine result }
        ensures whole { IfOk result (λ number. stores.has_all_parts self.new.engine.stored
            number ≡ true) }
        ensures cut { IfOk result (λ number. MatchOption self.old.engine.held ⊥
            (λ h. HasTheCut ⟦<O as Rules>⟧.lang self.old.engine h self.new.engine.stored number)) }
        ensures reached { IsSound ⟦<O as Rules>⟧.all self.old.engine
            → IfOk result (IsReachedCut (job_of ⟦<O as Rules>⟧.lang self.new.engine)
            O.Record.spelling (devices_of ⟦<O as Rules>⟧.lang self.new.engine)) }
        ensures step { IsStep ⟦<O as Rules>⟧.all self.old.engine self.new.engine }
        ensures stays { Stays ⟦<O as Rules>⟧.lang self.old.engine self.new.engine }
        ensures counted { IsCounted self.old.engine.faults self.new.engine.faults result }
        ensures claims { self.new ≡ record self.old { engine = self.new.engine } }
    {
        let Core { engine, .. } = self;
        engine.complete()
    }

    /// The pending transactions of a sink subtask up to the last complete checkpoint are committed,
    /// the oldest first. It takes no memory.
    pub fn commit(&mut self, sink: u32) -> Result<(), CoreFault>
        ensures ends { Commits self.old.engine self.new.engine sink result }
        ensures reaches { IsSound ⟦<O as Rules>⟧.all self.old.engine
            → OnOk result (length (committed_of self.new.engine.ledger sink)
            ≡ length (complete_numbers self.new.engine.stored)) }
        ensures step { IsStep ⟦<O as Rules>⟧.all self.old.engine self.new.engine }
        ensures stays { Stays ⟦<O as Rules>⟧.lang self.old.engine self.new.engine }
        ensures counted { IsCounted self.old.engine.faults self.new.engine.faults result }
        ensures claims { self.new ≡ record self.old { engine = self.new.engine } }
    {
        let Core { engine, .. } = self;
        engine.commit(sink)
    }

    /// Puts a record last in a partition. It is served whether the job runs or not, and does not
    /// take it down.
    pub fn append(&mut self, partition: u32, row: O::Record) -> Result<(), SourceFault>
        requires { Fits O.Record.HasSpelling O.Record.spelling row }
        ensures ends { Appends self.old.engine self.new.engine partition row result }
        ensures sound { IsSound ⟦<O as Rules>⟧.all self.old.engine
            → IsSound ⟦<O as Rules>⟧.all self.new.engine }
        ensures stays { Stays ⟦<O as Rules>⟧.lang self.old.engine self.new.engine }
        ensures claims { self.new ≡ record self.old { engine = self.new.engine } }
    {
        let Core { engine, .. } = self;
        engine.append(partition, row)
    }

    /// The partitions and the devices, as they stand. Those of a sound core are legal: a core of
    /// the same graph and operators that is opened over them is sound, though the partitions may
    /// have grown since.
    pub fn into_durable(self) -> (P, S, X)
        ensures partitions { P.records result.0 ≡ self.engine.partitions }
        ensures stored { S.state result.1 ≡ self.engine.stored }
        ensures ledger { X.state result.2 ≡ self.engine.ledger }
        ensures legal { IsSound ⟦<O as Rules>⟧.all self.engine
            → AreLegal ⟦<O as Rules>⟧.all self.engine.graph
            self.engine.operators (P.records result.0) (S.state result.1) (X.state result.2) }
    {
        let Core { engine, .. } = self;
        engine.into_durable()
    }

    /// Whether a record stands first in a channel.
    pub fn has_head(&self, channel: u32) -> bool
        ensures { IsTrue result ↔ MatchOption self.now.engine.held ⊥ (λ h. HasHead h channel) }
    {
        self.engine.has_head(channel)
    }

    /// How many sink subtasks there are.
    pub fn sinks(&self) -> u32
        ensures { result ≡ count_by is_sink self.now.engine.graph.tasks }
    {
        self.engine.sinks()
    }

    /// How many records of a sink subtask are committed.
    pub fn committed_len(&self, subtask: u32) -> Result<u64, CoreFault>
        ensures ok { IfOk result (λ len. (subtask < count_by is_sink self.now.engine.graph.tasks)
            × (len ≡ length (committed_rows self.now.engine.ledger subtask))) }
        ensures err { IfErr result (λ fault. (fault ≡ CoreFault.NoSuchTask)
            × (count_by is_sink self.now.engine.graph.tasks ≤ subtask)) }
    {
        self.engine.committed_len(subtask)
    }

    /// A copy of a committed record of a sink subtask, or `None` past the last. Records are
    /// numbered from 0, in the order of commit.
    pub fn committed(&self, subtask: u32, number: u64) -> Result<Option<Vec<u8>>, CoreFault>
        ensures ok { IfOk result (λ row. (subtask < count_by is_sink self.now.engine.graph.tasks)
            × (option_map (λ bytes. bytes.items) row
            ≡ slice_get (committed_rows self.now.engine.ledger subtask) number)) }
        ensures err { IfErr result (λ fault.
            ((fault ≡ CoreFault.NoSuchTask) × (count_by is_sink
            self.now.engine.graph.tasks ≤ subtask))
            ⊎ ((fault ≡ CoreFault.Memory) × (subtask
            < count_by is_sink self.now.engine.graph.tasks))) }
    {
        self.engine.committed(subtask, number)
    }

    /// The committed records of a sink subtask from this one on, as many as stand together: one at
    /// least, where there is one. It takes no memory.
    pub fn committed_from(&self, subtask: u32, number: u64) -> Result<&[Bytes], CoreFault>
        ensures ok { IfOk result (λ run. (subtask < count_by is_sink self.now.engine.graph.tasks)
            × IsRunFrom (committed_rows self.now.engine.ledger subtask) number run.now) }
        ensures err { IfErr result (λ fault. (fault ≡ CoreFault.NoSuchTask)
            × (count_by is_sink self.now.engine.graph.tasks ≤ subtask)) }
    {
        self.engine.committed_from(subtask, number)
    }
}
