//! The engine.

ghost use Rattle.std.specs.Prelude.{◌≡◌, ◌≢◌, ◌⊎◌, ◌↔◌, ◌<◌, ◌≤◌, ◌+◌, ◌^◌, ℕ, List, None, Some, Ok, Err, length, count_by, slice_get, true, OnOk, IfOk, IfErr, MatchOption, IsTrue};
ghost use Rattle.std.specs.Option.{option_map};
ghost use Rattle.commit_sink.specs.Ledger as ledgers;
ghost use Rattle.commit_sink.specs.Ledger.{committed_rows};
ghost use Rattle.commit_sink.specs.Runs.{IsRunFrom};
ghost use Rattle.job_graph.specs.Expanded.{is_source, is_sink};
ghost use Rattle.job_graph.specs.declared.role.Role.TheVariants as Role;
ghost use Rattle.job_graph.specs.PlainGraph.{HaveOperators};
ghost use Rattle.snapshot_store.specs.Store as stores;
ghost use Rattle.source_log.specs.Partitions as partitions;
ghost use Rattle.source_log.specs.declared.partitions.SourceFault.TheVariants as SourceFault;
ghost use Rattle.engine_model.specs.declared.fault.CoreFault.TheVariants as CoreFault;
ghost use Rattle.engine_model.specs.Calls.{left_by, EndsRead, EndsInject, EndsPersist, EndsPersistSome, EndsTrigger, EndsComplete};
ghost use Rattle.engine_model.specs.Commits.{EndsCommit};
ghost use Rattle.engine_model.specs.CompleteCut.{HasTheCut};
ghost use Rattle.engine_model.specs.Goes.{Goes};
ghost use Rattle.engine_model.specs.Keeps.{Keeps};
ghost use Rattle.engine_model.specs.ExactlyOnce.{IsExactlyOnce};
ghost use Rattle.engine_model.specs.LastCommitted.{committed_of, complete_numbers};
ghost use Rattle.engine_model.specs.Sound.{IsSound, AreLegal, HaveGrown};
ghost use Rattle.engine_lines.specs.Lines.{IsLine, CommitsABeginning};
ghost use Rattle.engine_lines.specs.Line.{applied};
ghost use Rattle.engine_plain.specs.Plain.{StepsIfOk, Stays};
ghost use Rattle.engine_model.specs.View.{job_of, devices_of};
ghost use Rattle.engine_model.specs.Restart.{EndsRestart};
ghost use Rattle.engine_model.specs.RestartLaws.{GoesOnFromCut};
ghost use Rattle.checkpoint_model.specs.Cuts.{IsReachedCut};
ghost use Rattle.dataflow_model.specs.Graph.{Begins};
ghost use Rattle.dataflow_model.specs.Machine as machine;
ghost use Rattle.claims.specs.Tasks.{EndsBarrier};
ghost use Rattle.engine.specs.Claimed.{StepsSoMany};
ghost use Rattle.engine.specs.Reading.{ReadsSome};
ghost use Rattle.engine.specs.Running.{IsCounted, IsSameJob, number_of, raised, attempts_after, OnDown, OnAttempt, OnStore, OnTransactions};

use crate::tasks::take_barrier;
use abs_codec::Bytes;
use alignment::Effect;
use claims::Leavings;
use commit_sink::Transactions;
use engine_checkpoints::{commit, complete, persist, persist_some, trigger};
use engine_model::{CoreFault, Persisted, Rules};
use engine_moves::{inject, read_next, read_some};
use job_graph::Graph;
use job_state::{Attempt, CopyWork};
use operators::Operator;
use recovery::restarted;
use snapshot_store::SnapshotStore;
use source_log::{Partitions, SourceFault};
use std::alloc::Global;
use std::marker::Model;

/// A job with its devices: the partitions that its sources read, the snapshot store, and the
/// transactions of its sinks. While the job runs, it has an attempt.
#[derive(Drop)]
pub struct Engine<
    O: Operator,
    S: SnapshotStore,
    X: Transactions,
    P: Partitions<Record = O::Record>,
> {
    pub(crate) alloc: Global,
    pub(crate) graph: Graph,
    pub(crate) operators: Vec<O>,
    pub(crate) log: P,
    pub(crate) store: S,
    pub(crate) transactions: X,
    pub(crate) attempt: Option<Attempt<O>>,
    pub(crate) is_fresh: bool,
    /// How many attempts were made: a number below 2^63.
    pub(crate) attempts: u64,
    /// What results that were taken have left.
    pub(crate) leavings: Leavings<O>,
}

impl<O: Operator, S: SnapshotStore, X: Transactions, P: Partitions<Record = O::Record>> Model
    for Engine<O, S, X, P> {
    ghost use Rattle.std.specs.Prelude.{◌+◌};
    ghost use Rattle.std.specs.Coded.{codes};
    ghost use Rattle.abs_codec.specs.Spelling.{Fits};
    ghost use Rattle.snapshot_store.specs.Store.{stored_code};
    ghost use Rattle.engine_model.specs.AllRules.{all_rules};
    ghost use Rattle.engine_model.specs.Language.{language};
    ghost use Rattle.engine_model.specs.State.{State};
    ghost use Rattle.engine_model.specs.Keeps.{Keeps};

    ghost Value = { State O O.Record O.Key O.State };

    ghost coded = { Prim.hlevel (codes, stored_code) };

    ghost view = { λ c. record {
      graph = c.graph;
      operators = c.operators.items;
      partitions = P.records c.log;
      stored = S.state c.store;
      ledger = X.state c.transactions;
      held = c.attempt;
      is_fresh = c.is_fresh;
      faults = P.fault_count c.log + S.fault_count c.store + X.fault_count c.transactions;
      attempts = c.attempts;
    } };

    ghost invariant = { λ c. Keeps (all_rules (language O.meaning O.Key.cmp
        O.Record.spelling O.Record.reading O.Key.reading O.State.reading)
        (Fits O.Record.HasSpelling O.Record.spelling) (Fits O.Key.HasSpelling O.Key.spelling)
        (Fits O.State.HasSpelling O.State.spelling) O.Suits) (record {
          graph = c.graph;
          operators = c.operators.items;
          partitions = P.records c.log;
          stored = S.state c.store;
          ledger = X.state c.transactions;
          held = c.attempt;
          is_fresh = c.is_fresh;
          faults = P.fault_count c.log + S.fault_count c.store + X.fault_count c.transactions;
          attempts = c.attempts;
        }) };
}

/// No attempt has a greater number.
const LAST_ATTEMPT: u64 = (1 << 63) - 1;

/// Takes the job down where a device has failed.
pub(crate) fn leave<A: Drop, T: Drop>(
    attempt: &mut Option<A>,
    outcome: Result<T, CoreFault>,
) -> Result<T, CoreFault>
    ensures answer { result ≡ outcome }
    ensures left { attempt.new ≡ left_by outcome attempt.old }
{
    match outcome {
        Err(CoreFault::Device) => {
            *attempt = None;
            Err(CoreFault::Device)
        }
        other => other,
    }
}

/// Takes the job up where a restart has made an attempt, and counts it.
fn raise<A: Drop>(
    attempt: &mut Option<A>,
    attempts: &mut u64,
    outcome: Result<(Option<u64>, A), CoreFault>,
) -> Result<Option<u64>, CoreFault>
    requires { attempts.old < 2 ^ 63 }
    ensures number { result ≡ number_of outcome }
    ensures holds { attempt.new ≡ raised outcome attempt.old }
    ensures counted { attempts.new ≡ attempts_after outcome attempts.old }
{
    match outcome {
        Ok((last, made)) => {
            *attempt = Some(made);
            *attempts += 1;
            Ok(last)
        }
        Err(fault) => Err(fault),
    }
}

/// Whether both devices are new.
fn are_new<S: SnapshotStore, X: Transactions>(store: &S, transactions: &X) -> bool
    ensures { IsTrue result ↔ ((S.state store.now ≡ stores.blank (S.state store.now).tasks)
        × (X.state transactions.now ≡ ledgers.blank (X.state transactions.now).subtasks)) }
{
    store.is_new() && transactions.is_new()
}

impl<O: Operator, S: SnapshotStore, X: Transactions, P: Partitions<Record = O::Record>> Engine<
    O,
    S,
    X,
    P,
> {
    /// A job that is down, over these devices, with no attempt made. Over legal devices, as new
    /// ones are, and those that a sound core has handed out, though the partitions may have grown
    /// since, it is sound.
    pub fn open(
        alloc: Global,
        graph: Graph,
        operators: Vec<O>,
        log: P,
        store: S,
        transactions: X,
    ) -> Self
        requires operators { HaveOperators graph operators.items }
        requires partitions { length (P.records log) ≡ count_by is_source graph.tasks }
        requires tasks { (S.state store).tasks ≡ length graph.tasks }
        requires subtasks { (X.state transactions).subtasks ≡ count_by is_sink graph.tasks }
        ensures down { result ≡ record {
          graph = graph;
          operators = operators.items;
          partitions = P.records log;
          stored = S.state store;
          ledger = X.state transactions;
          held = None;
          is_fresh = result.is_fresh;
          faults = P.fault_count log + S.fault_count store + X.fault_count transactions;
          attempts = 0;
        } }
        ensures legal { (former : List (List O.Record)) → HaveGrown former (P.records log)
            → AreLegal ⟦<O as Rules>⟧.all graph operators.items former
            (S.state store) (X.state transactions)
            → IsSound ⟦<O as Rules>⟧.all result }
        ensures fresh { IsTrue result.is_fresh
            ↔ ((S.state store ≡ stores.blank (length graph.tasks))
            × (X.state transactions ≡ ledgers.blank (count_by is_sink graph.tasks))) }
    {
        // (brings into the proof what every graph keeps)
        let _ = graph.tasks();
        let is_fresh = are_new(&store, &transactions);
        Engine {
            alloc,
            graph,
            operators,
            log,
            store,
            transactions,
            attempt: None,
            is_fresh,
            attempts: 0,
            leavings: Leavings::new(alloc),
        }
    }

    /// Whether both devices were new when the core was opened. No call changes it. What every core
    /// keeps is handed out (`kept`): among it, that the last complete number of a running job is
    /// the store's, and that what a commit takes is of a complete checkpoint. Of a core over new
    /// devices one run of the plain machine, without barriers, checkpoints or failures, has a
    /// moment for each complete checkpoint, in order, and the rows that each sink has committed, as
    /// `committed` answers them, are exactly its output at the moment of its own last committed
    /// checkpoint; on a line, what the operator makes of a beginning of the partition.
    pub fn is_fresh(&self) -> bool
        ensures value { result ≡ self.now.is_fresh }
        ensures kept { Keeps ⟦<O as Rules>⟧.all self.now }
        ensures sound { IsTrue result
            → IsSound ⟦<O as Rules>⟧.all self.now }
        ensures exact { IsTrue result → IsExactlyOnce ⟦<O as Rules>⟧.lang self.now }
        ensures line { IsTrue result → (operator : O) → IsLine self.now.graph
            → slice_get self.now.operators 0 ≡ Some operator
            → CommitsABeginning ⟦<O as Rules>⟧.lang self.now
            (λ rows. applied O.meaning operator rows) }
    {
        self.is_fresh
    }

    /// The job is down, and what it held is lost.
    pub fn fail(&mut self) -> Result<(), CoreFault>
        ensures ok { OnOk result ((self.old.held ≢ None)
            × (self.new ≡ record self.old { held = None })) }
        ensures err { IfErr result (λ fault. (fault ≡ CoreFault.NotRunning) × (self.old.held ≡ None)
            × (self.new ≡ self.old)) }
        ensures goes { Goes ⟦<O as Rules>⟧.lang self.old self.new }
        ensures sound { IsSound ⟦<O as Rules>⟧.all self.old → IsSound ⟦<O as Rules>⟧.all self.new }
        ensures stays { Stays ⟦<O as Rules>⟧.lang self.old self.new }
        ensures counted { IsCounted self.old.faults self.new.faults result }
        ensures same { IsSameJob self.old self.new }
        ensures ledger { self.new.ledger ≡ self.old.ledger }
    {
        if self.attempt.is_none() {
            return Err(CoreFault::NotRunning);
        }
        self.attempt = None;
        Ok(())
    }

    /// The next attempt runs from the last complete checkpoint, whose number is answered, or anew
    /// where there is none. Each sink has committed the transactions that its part names, all
    /// others that were open or pre-committed are aborted, and a new one is open. A refused restart
    /// leaves the job down; transactions may be settled in part, and the next one does the rest.
    /// Attempts have numbers below 2^63.
    pub fn restart(&mut self) -> Result<Option<u64>, CoreFault>
        ensures ends { OnDown self.old self.new (EndsRestart ⟦<O as Rules>⟧.all self.old.graph
            self.old.operators self.old.partitions self.old.stored self.old.ledger self.new.ledger)
            result }
        ensures goes { IsSound ⟦<O as Rules>⟧.all self.old
            → Goes ⟦<O as Rules>⟧.lang self.old self.new }
        ensures sound { IsSound ⟦<O as Rules>⟧.all self.old → IsSound ⟦<O as Rules>⟧.all self.new }
        ensures begins { (subtask : ℕ) → Begins (committed_rows self.old.ledger subtask)
            (committed_rows self.new.ledger subtask) }
        ensures cut { IsSound ⟦<O as Rules>⟧.all self.old
            → IfOk result (λ last. MatchOption self.new.held ⊥
            (λ k. GoesOnFromCut ⟦<O as Rules>⟧.lang self.new last k)) }
        ensures good { IsSound ⟦<O as Rules>⟧.all self.old → result ≢ Err CoreFault.BadSnapshot }
        ensures counted { IsCounted self.old.faults self.new.faults result }
        ensures same { IsSameJob self.old self.new }
    {
        if self.attempt.is_some() {
            return Err(CoreFault::NotReady);
        }
        if self.attempts >= LAST_ATTEMPT {
            return Err(CoreFault::NumbersSpent);
        }
        // `count` says that all records fit, so no part that a sound core wrote is bad.
        let _ = self.log.count();
        let outcome = restarted(
            self.alloc,
            &self.graph,
            &self.operators,
            &self.log,
            &mut self.store,
            &mut self.transactions,
        );
        raise(&mut self.attempt, &mut self.attempts, outcome)
    }

    /// Source `task` sends its next record.
    pub fn read(&mut self, task: u32) -> Result<(), CoreFault>
        ensures ends { OnAttempt self.old self.new (λ h k. EndsRead self.old.graph task h k
            ⟦<O as Rules>⟧.lang self.old.partitions) result }
        ensures goes { Goes ⟦<O as Rules>⟧.lang self.old self.new }
        ensures sound { IsSound ⟦<O as Rules>⟧.all self.old → IsSound ⟦<O as Rules>⟧.all self.new }
        ensures plain { StepsIfOk result ⟦<O as Rules>⟧.lang (machine.Read task) self.old self.new }
        ensures counted { IsCounted self.old.faults self.new.faults result }
        ensures same { IsSameJob self.old self.new }
        ensures ledger { self.new.ledger ≡ self.old.ledger }
    {
        let Some(attempt) = &mut self.attempt else {
            return Err(CoreFault::NotRunning);
        };
        let outcome = read_next(attempt, &self.graph, &mut self.log, task);
        leave(&mut self.attempt, outcome)
    }

    /// Source `task` sends its next records, one after another and so many at most, as so many
    /// calls of `read`, until one is refused: how many it has sent, and why no more.
    pub fn read_some(&mut self, task: u32, most: u32) -> (u32, Result<(), CoreFault>)
        requires { 0 < most }
        ensures ends { ReadsSome ⟦<O as Rules>⟧.all self.old self.new task most result.0 result.1 }
        ensures goes { Goes ⟦<O as Rules>⟧.lang self.old self.new }
        ensures sound { IsSound ⟦<O as Rules>⟧.all self.old → IsSound ⟦<O as Rules>⟧.all self.new }
        ensures plain { StepsSoMany result.0 ⟦<O as Rules>⟧.lang (machine.Read task) self.old
            self.new }
        ensures counted { IsCounted self.old.faults self.new.faults result.1 }
        ensures same { IsSameJob self.old self.new }
        ensures ledger { self.new.ledger ≡ self.old.ledger }
    {
        let Some(attempt) = &mut self.attempt else {
            return (0, Err(CoreFault::NotRunning));
        };
        let (count, outcome) = read_some(attempt, &self.graph, &mut self.log, task, most);
        let end = leave(&mut self.attempt, outcome);
        (count, end)
    }

    /// A task takes the barrier at the head of its input. At the last of its unmarked inputs it
    /// copies what it holds; a sink then begins a transaction and pre-commits the old one.
    pub fn take_barrier(&mut self, task: u32, input: u32) -> Result<Effect, CoreFault>
        ensures ends { OnTransactions self.old self.new
            (λ h k. EndsBarrier self.old.graph task input h k self.old.ledger self.new.ledger)
            result }
        ensures goes { Goes ⟦<O as Rules>⟧.lang self.old self.new }
        ensures sound { IsSound ⟦<O as Rules>⟧.all self.old → IsSound ⟦<O as Rules>⟧.all self.new }
        ensures begins { (task subtask : ℕ) → slice_get self.old.graph.tasks task
            ≡ Some (Role.Sink subtask) → Begins (committed_rows self.old.ledger subtask)
            (committed_rows self.new.ledger subtask) }
        ensures stays { Stays ⟦<O as Rules>⟧.lang self.old self.new }
        ensures counted { IsCounted self.old.faults self.new.faults result }
        ensures same { IsSameJob self.old self.new }
    {
        let Some(attempt) = &mut self.attempt else {
            return Err(CoreFault::NotRunning);
        };
        let outcome = take_barrier(
            attempt,
            &self.graph,
            &self.operators,
            &mut self.transactions,
            task,
            input,
        );
        leave(&mut self.attempt, outcome)
    }

    /// Source `task` copies its offset for the pending checkpoint, and sends the barrier.
    pub fn inject(&mut self, task: u32) -> Result<(), CoreFault>
        ensures ends { OnAttempt self.old self.new
            (λ h k. EndsInject self.old.graph task h k) result }
        ensures goes { Goes ⟦<O as Rules>⟧.lang self.old self.new }
        ensures sound { IsSound ⟦<O as Rules>⟧.all self.old → IsSound ⟦<O as Rules>⟧.all self.new }
        ensures stays { Stays ⟦<O as Rules>⟧.lang self.old self.new }
        ensures counted { IsCounted self.old.faults self.new.faults result }
        ensures same { IsSameJob self.old self.new }
        ensures ledger { self.new.ledger ≡ self.old.ledger }
    {
        let Some(attempt) = &mut self.attempt else {
            return Err(CoreFault::NotRunning);
        };
        let outcome = inject(attempt, &self.graph, task);
        leave(&mut self.attempt, outcome)
    }

    /// A checkpoint begins, under a number that was never used. The parts below the last complete
    /// number are discarded. It takes no memory.
    pub fn trigger(&mut self) -> Result<u64, CoreFault>
        ensures ends { OnStore self.old self.new
            (λ h k. EndsTrigger h k self.old.stored self.new.stored) result }
        ensures goes { Goes ⟦<O as Rules>⟧.lang self.old self.new }
        ensures sound { IsSound ⟦<O as Rules>⟧.all self.old → IsSound ⟦<O as Rules>⟧.all self.new }
        ensures stays { Stays ⟦<O as Rules>⟧.lang self.old self.new }
        ensures counted { IsCounted self.old.faults self.new.faults result }
        ensures same { IsSameJob self.old self.new }
        ensures ledger { self.new.ledger ≡ self.old.ledger }
    {
        let Some(attempt) = &mut self.attempt else {
            return Err(CoreFault::NotRunning);
        };
        let outcome = trigger(attempt, &mut self.store);
        leave(&mut self.attempt, outcome)
    }

    /// The part of a task that has copied is put in the store and acknowledged.
    pub fn persist(&mut self, task: u32) -> Result<(), CoreFault>
        ensures ends { OnStore self.old self.new (λ h k. EndsPersist self.old.graph task h k
            self.old.stored self.new.stored ⟦<O as Rules>⟧.spelling) result }
        ensures goes { Goes ⟦<O as Rules>⟧.lang self.old self.new }
        ensures sound { IsSound ⟦<O as Rules>⟧.all self.old → IsSound ⟦<O as Rules>⟧.all self.new }
        ensures stays { Stays ⟦<O as Rules>⟧.lang self.old self.new }
        ensures counted { IsCounted self.old.faults self.new.faults result }
        ensures same { IsSameJob self.old self.new }
        ensures ledger { self.new.ledger ≡ self.old.ledger }
    {
        let Some(attempt) = &mut self.attempt else {
            return Err(CoreFault::NotRunning);
        };
        let outcome = persist(attempt, &self.graph, &mut self.store, task);
        leave(&mut self.attempt, outcome)
    }

    /// Hands out the work on at most `most` of the next entries of an operator's copy, to be done
    /// by anyone while nothing is held, where that is enough to be worth it, and none is handed
    /// out.
    /// `persist_some` takes what comes of it.
    pub fn hand_out(&mut self, task: u32, most: u32) -> Option<CopyWork<O::Key, O::State>>
        ensures { self.new ≡ self.old }
    {
        match &mut self.attempt {
            Some(attempt) => attempt.hand_out(task, most as usize),
            None => None,
        }
    }

    /// At most `most` entries of the work on a task's part are done, which nothing shows (`More`);
    /// or none are left, and the part is put in the store and acknowledged (`Done`). It is refused
    /// as `persist`, but for an open log only where no entry is left.
    pub fn persist_some(&mut self, task: u32, most: u32) -> Result<Persisted, CoreFault>
        ensures ends { OnStore self.old self.new (λ h k. EndsPersistSome self.old.graph task h k
            self.old.stored self.new.stored ⟦<O as Rules>⟧.spelling) result }
        ensures goes { Goes ⟦<O as Rules>⟧.lang self.old self.new }
        ensures sound { IsSound ⟦<O as Rules>⟧.all self.old → IsSound ⟦<O as Rules>⟧.all self.new }
        ensures stays { Stays ⟦<O as Rules>⟧.lang self.old self.new }
        ensures counted { IsCounted self.old.faults self.new.faults result }
        ensures same { IsSameJob self.old self.new }
        ensures ledger { self.new.ledger ≡ self.old.ledger }
    {
        let Some(attempt) = &mut self.attempt else {
            return Err(CoreFault::NotRunning);
        };
        let outcome = persist_some(attempt, &self.graph, &mut self.store, task, most);
        leave(&mut self.attempt, outcome)
    }

    /// The pending checkpoint, of which the store has every task's part, becomes complete: the
    /// parts say the cut that the attempt has made. Of a sound core a plain run comes to that cut,
    /// where each sink's output is what it has committed or has pre-committed for a complete
    /// checkpoint. It takes no memory.
    pub fn complete(&mut self) -> Result<u64, CoreFault>
        ensures ends { OnStore self.old self.new
            (λ h k. EndsComplete h k self.old.stored self.new.stored) result }
        ensures whole { IfOk result (λ number. stores.has_all_parts self.new.stored number ≡ true) }
        ensures cut { IfOk result (λ number. MatchOption self.old.held ⊥
            (λ h. HasTheCut ⟦<O as Rules>⟧.lang self.old h self.new.stored number)) }
        ensures reached { IsSound ⟦<O as Rules>⟧.all self.old
            → IfOk result (IsReachedCut (job_of ⟦<O as Rules>⟧.lang self.new) O.Record.spelling
            (devices_of ⟦<O as Rules>⟧.lang self.new)) }
        ensures goes { Goes ⟦<O as Rules>⟧.lang self.old self.new }
        ensures sound { IsSound ⟦<O as Rules>⟧.all self.old → IsSound ⟦<O as Rules>⟧.all self.new }
        ensures stays { Stays ⟦<O as Rules>⟧.lang self.old self.new }
        ensures counted { IsCounted self.old.faults self.new.faults result }
        ensures same { IsSameJob self.old self.new }
        ensures ledger { self.new.ledger ≡ self.old.ledger }
    {
        let Some(attempt) = &mut self.attempt else {
            return Err(CoreFault::NotRunning);
        };
        let outcome = complete(attempt, &mut self.store);
        leave(&mut self.attempt, outcome)
    }

    /// The pending transactions of a sink subtask up to the last complete checkpoint are committed,
    /// the oldest first. It takes no memory.
    pub fn commit(&mut self, sink: u32) -> Result<(), CoreFault>
        ensures ends { OnTransactions self.old self.new
            (λ h k. EndsCommit self.old.graph sink h k self.old.ledger self.new.ledger) result }
        ensures goes { Goes ⟦<O as Rules>⟧.lang self.old self.new }
        ensures sound { IsSound ⟦<O as Rules>⟧.all self.old → IsSound ⟦<O as Rules>⟧.all self.new }
        ensures begins { (task subtask : ℕ) → slice_get self.old.graph.tasks task
            ≡ Some (Role.Sink subtask) → Begins (committed_rows self.old.ledger subtask)
            (committed_rows self.new.ledger subtask) }
        ensures stays { Stays ⟦<O as Rules>⟧.lang self.old self.new }
        ensures counted { IsCounted self.old.faults self.new.faults result }
        ensures reaches { IsSound ⟦<O as Rules>⟧.all self.old
            → OnOk result (length (committed_of self.new.ledger sink)
            ≡ length (complete_numbers self.new.stored)) }
        ensures same { IsSameJob self.old self.new }
    {
        let Some(attempt) = &mut self.attempt else {
            return Err(CoreFault::NotRunning);
        };
        let outcome = commit(attempt, &self.graph, &mut self.transactions, sink);
        leave(&mut self.attempt, outcome)
    }

    /// Puts a record last in a partition. It is served whether the job runs or not, and does not
    /// take it down.
    pub fn append(&mut self, partition: u32, row: O::Record) -> Result<(), SourceFault>
        requires { ⟦<O as Rules>⟧.RecordFits row }
        ensures ends { partitions.Ends (self.old.partitions, self.old.faults)
            (self.new.partitions, self.new.faults)
            (partitions.append_refusal self.old.partitions partition)
            (partitions.appended self.old.partitions partition row) result }
        ensures told { result ≢ Err SourceFault.Fault → self.new.faults ≡ self.old.faults }
        ensures same { self.new ≡ record self.old {
          partitions = self.new.partitions;
          faults = self.new.faults;
        } }
        ensures stays { Stays ⟦<O as Rules>⟧.lang self.old self.new }
        ensures kept { IsSameJob self.old self.new }
        ensures sound { IsSound ⟦<O as Rules>⟧.all self.old → IsSound ⟦<O as Rules>⟧.all self.new }
        ensures ledger { self.new.ledger ≡ self.old.ledger }
    {
        self.log.append(partition, row)
    }

    /// The partitions and the devices, as they stand. Those of a sound core are legal: a core of
    /// the same graph and operators that is opened over them is the partitions may have grown
    /// since, it is sound.
    pub fn into_durable(self) -> (P, S, X)
        ensures partitions { P.records result.0 ≡ self.partitions }
        ensures stored { S.state result.1 ≡ self.stored }
        ensures ledger { X.state result.2 ≡ self.ledger }
        ensures legal { IsSound ⟦<O as Rules>⟧.all self
            → AreLegal ⟦<O as Rules>⟧.all self.graph self.operators
            (P.records result.0) (S.state result.1) (X.state result.2) }
    {
        let Engine {
            log,
            store,
            transactions,
            ..
        } = self;
        (log, store, transactions)
    }

    /// How many sink subtasks there are.
    pub fn sinks(&self) -> u32
        ensures { result ≡ count_by is_sink self.now.graph.tasks }
    {
        self.graph.sinks()
    }

    /// How many records of a sink subtask are committed.
    pub fn committed_len(&self, subtask: u32) -> Result<u64, CoreFault>
        ensures ok { IfOk result (λ len. (subtask < count_by is_sink self.now.graph.tasks)
            × (len ≡ length (committed_rows self.now.ledger subtask))) }
        ensures err { IfErr result (λ fault. (fault ≡ CoreFault.NoSuchTask)
            × (count_by is_sink self.now.graph.tasks ≤ subtask)) }
    {
        if subtask >= self.graph.sinks() {
            return Err(CoreFault::NoSuchTask);
        }
        Ok(self.transactions.committed_len(subtask))
    }

    /// A copy of a committed record of a sink subtask, or `None` past the last. Records are
    /// numbered from 0, in the order of commit.
    pub fn committed(&self, subtask: u32, number: u64) -> Result<Option<Vec<u8>>, CoreFault>
        ensures ok { IfOk result (λ row. (subtask < count_by is_sink self.now.graph.tasks)
            × (option_map (λ bytes. bytes.items) row
            ≡ slice_get (committed_rows self.now.ledger subtask) number)) }
        ensures err { IfErr result (λ fault. ((fault ≡ CoreFault.NoSuchTask)
            × (count_by is_sink self.now.graph.tasks ≤ subtask))
            ⊎ ((fault ≡ CoreFault.Memory) × (subtask < count_by is_sink self.now.graph.tasks))) }
    {
        if subtask >= self.graph.sinks() {
            return Err(CoreFault::NoSuchTask);
        }
        match self.transactions.committed(subtask, number) {
            Ok(row) => Ok(row),
            Err(_) => Err(CoreFault::Memory),
        }
    }

    /// The committed records of a sink subtask from this one on, as many as stand together: one at
    /// least, where there is one. It takes no memory.
    pub fn committed_from(&self, subtask: u32, number: u64) -> Result<&[Bytes], CoreFault>
        ensures ok { IfOk result (λ run. (subtask < count_by is_sink self.now.graph.tasks)
            × IsRunFrom (committed_rows self.now.ledger subtask) number run.now) }
        ensures err { IfErr result (λ fault. (fault ≡ CoreFault.NoSuchTask)
            × (count_by is_sink self.now.graph.tasks ≤ subtask)) }
    {
        if subtask >= self.graph.sinks() {
            return Err(CoreFault::NoSuchTask);
        }
        Ok(self.transactions.committed_from(subtask, number))
    }
}
