//! What stands behind the lock: the core, the book of totals, the turns of the present run, and
//! the output writer, if there are readers.

ghost use Rattle.std.specs.Prelude.{◌≡◌, ◌⊎◌, ◌+◌, ◌-◌, ◌<◌, ◌≤◌, ◌^◌, [], ⊤, None, Ok, IfOk, IfErr, MatchOption, MatchResult, length, replicate};
ghost use Rattle.std.specs.Option.{option_map};
ghost use Rattle.claims.specs.Carried.{given_of, records_of};
ghost use Rattle.dataflow_core.specs.Claims.{EndsFinish, FinishMoves, EndsAccepting, AcceptMoves, EndsAcceptingRows, RowsMove};
ghost use Rattle.dataflow_core.specs.Steps.{IsStep, Preserves};
ghost use Rattle.output_readers.specs.Seeing.{IsOpening};
ghost use Rattle.row_publishing.specs.Showing.{Begin, AreCommitted, Shows};

use claims::Worked;
use commit_sink::Transactions;
use counted_finishes::{accept_counted, accept_rows_counted, finish_counted};
use dataflow_core::{Core, CoreFault, Done, Rules};
use operators::Operator;
use output_readers::{OutputFault, OutputReader, OutputWriter, Told};
use row_publishing::show_committed;
use run_schedule::{HandedOut, Place, RunFault, Schedule, Turns};
use snapshot_store::SnapshotStore;
use source_log::Partitions;
use std::alloc::Global;
use std::marker::Model;
use std::sync::Wait;
use std::sync::ledger::{Blank, Book, Ledger, Share};
use worker_turns::{Next, Workbench, claim_on, take_turn};

/// So many turns are taken in one hold of the lock, at most.
const TURNS_A_HOLD: u64 = 64;

/// The core with all that belongs to it.
#[derive(Drop)]
pub struct Station<
    O: Operator,
    S: SnapshotStore,
    X: Transactions,
    P: Partitions<Record = O::Record>,
    L: Ledger,
    R: Wait + Drop,
> {
    pub(crate) core: Core<O, S, X, P>,
    book: Book<L>,
    turns: Turns,
    output: Option<OutputWriter<R>>,
}

impl<
    O: Operator,
    S: SnapshotStore,
    X: Transactions,
    P: Partitions<Record = O::Record>,
    L: Ledger,
    R: Wait + Drop,
> Model for Station<O, S, X, P, L, R> {
    ghost use Rattle.std.specs.Coded.{codes};
    ghost use Rattle.snapshot_store.specs.Store.{stored_code};
    ghost use Rattle.counted_finishes.specs.Counting.{Within};
    ghost use Rattle.row_publishing.specs.Showing.{Shows};
    ghost use Rattle.thread_runner.specs.Standing.{Standing};

    ghost Value = { Standing O O.Record O.Key O.State };

    ghost coded = { Prim.hlevel (codes, stored_code) };

    ghost view = { λ s. record { core = s.core; total = s.book.total; output = s.output } };

    ghost invariant = { λ s. Within s.book.total s.core × Shows s.output s.core.engine };
}

impl<
    O: Operator,
    S: SnapshotStore,
    X: Transactions,
    P: Partitions<Record = O::Record>,
    L: Ledger,
    R: Wait + Drop,
> Station<O, S, X, P, L, R> {
    /// A station without readers over this core, whose graph's schedule this is, and the share with
    /// the whole ledger. It holds no rows but the core's.
    pub fn new(
        core: Core<O, S, X, P>,
        schedule: Schedule,
        blank: Blank,
    ) -> (Station<O, S, X, P, L, R>, Share<L>)
        requires name { blank.name ≡ L.name }
        requires parts { (blank.parts ≡ L.parts) × (L.parts ≡ 65) }
        ensures station { result.0 ≡ record { core = core; total = 0; output = None } }
        ensures share { (result.1.parts ≡ L.parts) × (result.1.amount ≡ 0) }
    {
        Station::opened(core, schedule, blank, None)
    }

    /// A station with 16 readers, whose opening lists are empty. At `Err` memory was refused, and
    /// the core is handed back.
    pub fn with_readers(
        rt: R,
        alloc: Global,
        core: Core<O, S, X, P>,
        schedule: Schedule,
        blank: Blank,
    ) -> Result<(Station<O, S, X, P, L, R>, Share<L>), (RunFault, Core<O, S, X, P>)>
        requires name { blank.name ≡ L.name }
        requires parts { (blank.parts ≡ L.parts) × (L.parts ≡ 65) }
        ensures station { IfOk result (λ r. (r.0.core ≡ core) × (r.0.total ≡ 0)) }
        ensures output { IfOk result (λ r. MatchOption r.0.output ⊥ (λ o. (o.readers ≡ 16)
            × (o.published ≡ replicate (length o.published) []))) }
        ensures share { IfOk result (λ r. (r.1.parts ≡ L.parts) × (r.1.amount ≡ 0)) }
        ensures back { IfErr result (λ e. e.1 ≡ core) }
    {
        match OutputWriter::new(rt, alloc, core.sinks() as usize) {
            Ok(writer) => Ok(Station::opened(core, schedule, blank, Some(writer))),
            Err(fault) => Err((refused(fault), core)),
        }
    }

    fn opened(
        core: Core<O, S, X, P>,
        schedule: Schedule,
        blank: Blank,
        output: Option<OutputWriter<R>>,
    ) -> (Station<O, S, X, P, L, R>, Share<L>)
        requires name { blank.name ≡ L.name }
        requires parts { (blank.parts ≡ L.parts) × (L.parts ≡ 65) }
        requires shows { Shows output core.engine }
        ensures station { result.0 ≡ record { core = core; total = 0; output = output } }
        ensures share { (result.1.parts ≡ L.parts) × (result.1.amount ≡ 0) }
    {
        core.serials_bound();
        let (book, share) = blank.open::<L>();
        let turns = Turns::new(schedule);
        (
            Station {
                core,
                book,
                turns,
                output,
            },
            share,
        )
    }

    /// Hands the core out. From then on every read is refused; it waits for readers that copy a
    /// list at that moment.
    pub fn into_core(self) -> Core<O, S, X, P>
        ensures { result ≡ self.core }
    {
        let Station {
            core,
            book: _book,
            turns: _turns,
            output: _output,
        } = self;
        core
    }

    /// One of the readers that were made with the station. It has read nothing, and was told of no
    /// row. `ReadersFull` where all 16 were handed out, or there were none.
    pub fn reader(&mut self) -> Result<OutputReader, RunFault>
        ensures opening { IfOk result (λ reader. MatchOption self.old.output ⊥
            (λ o. IsOpening o.history (length o.appended) reader)) }
        ensures full { IfErr result (λ fault. (fault ≡ RunFault.ReadersFull)
            × MatchOption self.old.output ⊤ (λ o. o.readers ≡ 0)) }
        ensures readers { MatchOption self.new.output (self.old.output ≡ None) (λ new.
            MatchOption self.old.output ⊥ (λ old. (new.published ≡ old.published)
            × (new.history ≡ old.history)
            × MatchResult result (λ _. old.readers ≡ new.readers + 1)
            (λ _. new.readers ≡ old.readers))) }
        ensures same { (self.new.core ≡ self.old.core) × (self.new.total ≡ self.old.total) }
    {
        let Station { output, .. } = self;
        match output {
            Some(writer) => writer.reader().map_err(refused),
            None => Err(RunFault::ReadersFull),
        }
    }

    /// Shows readers all that is committed, and tells which lists these are. At `Err` readers see
    /// what they saw: memory was refused, or the station has no readers (`Closed`). It costs what
    /// was committed since the last time.
    pub fn publish(&mut self) -> Result<Told, RunFault>
        ensures shown { IfOk result (λ told. MatchOption self.new.output ⊥ (λ o.
            AreCommitted o.published self.new.core.engine
            × (told.history ≡ o.history) × (told.lists ≡ o.published))) }
        ensures err { IfErr result (λ _. option_map (λ o. o.published) self.new.output
            ≡ option_map (λ o. o.published) self.old.output) }
        ensures refused { IfErr result (λ fault. MatchOption self.old.output
            (fault ≡ RunFault.Closed) (λ _. fault ≡ RunFault.Memory)) }
        ensures history { option_map (λ o. o.history) self.new.output
            ≡ option_map (λ o. o.history) self.old.output }
        ensures same { (self.new.core ≡ self.old.core) × (self.new.total ≡ self.old.total) }
    {
        let Station { core, output, .. } = self;
        match output {
            Some(writer) => show_committed(core, writer).map_err(refused),
            None => Err(RunFault::Closed),
        }
    }

    /// A law, with nothing to do: what readers can see of a sink subtask begins what it has
    /// committed.
    pub fn published_begins(&self)
        ensures { MatchOption self.now.output ⊤ (λ o.
            Begin o.published self.now.core.engine) }
    {
        if let Some(writer) = &self.output {
            writer.published_begins();
        }
    }

    /// Takes what was done of a job, as the core's own `finish` does, and adds the number of its
    /// records to the share and the book where it is taken.
    pub fn finish_with(&mut self, share: &mut Share<L>, done: Done<O>) -> Result<(), CoreFault>
        requires { 0 < share.old.parts }
        ensures ends { EndsFinish self.old.core ⟦<O as Rules>⟧.lang self.new.core done.attempt
            done.serial done.worked result }
        ensures step { IsStep ⟦<O as Rules>⟧.all self.old.core.engine self.new.core.engine }
        ensures plain { FinishMoves self.old.core ⟦<O as Rules>⟧.lang self.new.core done.attempt
            done.serial done.worked result }
        ensures total { MatchResult result (λ _. self.new.total ≡ self.old.total
            + records_of (given_of done.worked)) (λ _. self.new.total ≡ self.old.total) }
        ensures output { self.new.output ≡ self.old.output }
        ensures amount { MatchResult result (λ _. share.new.amount ≡ share.old.amount
            + records_of (given_of done.worked)) (λ _. share.new.amount ≡ share.old.amount) }
        ensures bound { share.new.amount < 2 ^ 128 }
        ensures parts { share.new.parts ≡ share.old.parts }
    {
        let Station { core, book, .. } = self;
        finish_counted(core, book, share, done)
    }

    /// Takes what was made of a task's work with no claim, as the core's own `accept` does, and
    /// adds the number of its records to the share and the book where it is taken.
    pub fn accept_with(
        &mut self,
        share: &mut Share<L>,
        task: u32,
        input: u32,
        worked: Worked<O>,
    ) -> Result<(), CoreFault>
        requires { 0 < share.old.parts }
        ensures ends { EndsAccepting self.old.core ⟦<O as Rules>⟧.lang self.new.core task input
            worked result }
        ensures step { IsStep ⟦<O as Rules>⟧.all self.old.core.engine self.new.core.engine }
        ensures plain { AcceptMoves self.old.core ⟦<O as Rules>⟧.lang self.new.core task input
            worked result }
        ensures total { MatchResult result (λ _. self.new.total ≡ self.old.total
            + records_of (given_of worked)) (λ _. self.new.total ≡ self.old.total) }
        ensures output { self.new.output ≡ self.old.output }
        ensures amount { MatchResult result (λ _. share.new.amount ≡ share.old.amount
            + records_of (given_of worked)) (λ _. share.new.amount ≡ share.old.amount) }
        ensures bound { share.new.amount < 2 ^ 128 }
        ensures parts { share.new.parts ≡ share.old.parts }
    {
        let Station { core, book, .. } = self;
        accept_counted(core, book, share, task, input, worked)
    }

    /// Takes what was made of the work on several records of a sink with no claim, as the core's
    /// own `accept_rows` does, and adds the number of those that are taken to the share and the
    /// book.
    pub fn accept_rows_with(
        &mut self,
        share: &mut Share<L>,
        task: u32,
        input: u32,
        ahead: Vec<Worked<O>>,
    ) -> (u64, Result<(), CoreFault>)
        requires { 0 < share.old.parts }
        ensures ends { EndsAcceptingRows self.old.core ⟦<O as Rules>⟧.lang self.new.core task input
            ahead.items result.0 result.1 }
        ensures step { IsStep ⟦<O as Rules>⟧.all self.old.core.engine self.new.core.engine }
        ensures plain { RowsMove self.old.core ⟦<O as Rules>⟧.lang self.new.core task input
            result.0 }
        ensures total { self.new.total ≡ self.old.total + result.0 }
        ensures output { self.new.output ≡ self.old.output }
        ensures amount { share.new.amount ≡ share.old.amount + result.0 }
        ensures bound { share.new.amount < 2 ^ 128 }
        ensures parts { share.new.parts ≡ share.old.parts }
    {
        let Station { core, book, .. } = self;
        accept_rows_counted(core, book, share, task, input, ahead)
    }

    /// Takes what was done of a task's job and of the work behind it, if there is something, and
    /// tells the turns: how many records were taken, and where the worker is to claim again at
    /// once, if it is.
    pub(crate) fn take_batch(
        &mut self,
        share: &mut Share<L>,
        bench: &mut Workbench<O>,
    ) -> (u128, Option<Place>)
        requires { 0 < share.old.parts }
        ensures amount { share.new.amount ≡ share.old.amount + result.0 }
        ensures bound { share.new.amount < 2 ^ 128 }
        ensures parts { share.new.parts ≡ share.old.parts }
    {
        let Some(done) = bench.take_done() else {
            self.audit(share);
            return (0, None);
        };
        let place = bench.place();
        let records = done.records();
        if let Err(fault) = self.finish_with(share, done) {
            let _ = bench.take_worked();
            self.finished(place.task, Err(fault), records);
            return (0, None);
        }
        let Some(ahead) = bench.take_worked() else {
            let again = self.goes_on(place, records);
            return (records as u128, again);
        };
        let (count, end) = self.accept_rows_with(share, place.task, place.input, ahead);
        let taken = records as u128 + count as u128;
        let all = u64::try_from(taken).unwrap_or(u64::MAX);
        self.finished(place.task, Ok(()), all);
        if end.is_err() {
            self.finished(place.task, end, 0);
        }
        (taken, None)
    }

    /// With all shares gathered, the total is their sum.
    pub fn audit(&mut self, share: &mut Share<L>)
        ensures whole { share.old.parts ≡ L.parts → share.old.amount ≡ self.old.total }
        ensures bound { share.new.amount < 2 ^ 128 }
        ensures amount { share.new.amount ≡ share.old.amount }
        ensures parts { share.new.parts ≡ share.old.parts }
        ensures same { self.new ≡ self.old }
    {
        let Station { core, book, .. } = self;
        core.serials_bound();
        book.audit(share);
    }

    /// A run of so many turns and restarts begins, by so many workers. An operator's claims are of
    /// so many records at first.
    pub(crate) fn begin(
        &mut self,
        workers: usize,
        every: u64,
        turns: u64,
        restarts: u64,
        batch: u32,
    )
        requires { 1 ≤ batch }
        ensures { self.new ≡ self.old }
    {
        self.turns
            .begin(workers as u64, every, turns, restarts, batch);
    }

    /// How many of so many workers can be of use.
    pub(crate) fn useful(&self, workers: usize) -> usize
        requires { 1 ≤ workers }
        ensures { (1 ≤ result) × (result ≤ workers) }
    {
        self.turns.useful(workers)
    }

    /// A worker wants to rest. Whether it may.
    pub(crate) fn rests(&mut self) -> bool
        ensures { self.new ≡ self.old }
    {
        self.turns.rests()
    }

    /// Whether the run is over.
    pub(crate) fn is_over(&self) -> bool {
        self.turns.is_over()
    }

    /// A worker has rested.
    pub(crate) fn wakes(&mut self)
        ensures { self.new ≡ self.old }
    {
        self.turns.wakes();
    }

    /// Counts the turn of a worker that waits with its job. False where the run is over, or no turn
    /// is left.
    pub(crate) fn wait(&mut self) -> bool
        ensures { self.new ≡ self.old }
    {
        self.turns.wait()
    }

    /// One turn: what this worker does next, and how many turns are left. Every step but a task's
    /// work is made here.
    pub(crate) fn choose(&mut self, worker: u32, bench: &mut Workbench<O>) -> (Next, u64)
        ensures total { self.new.total ≡ self.old.total }
        ensures step { Preserves ⟦<O as Rules>⟧.all self.old.core.engine self.new.core.engine }
    {
        let Station { core, turns, .. } = self;
        let next = take_turn(core, turns, worker, bench);
        (next, turns.left())
    }

    /// The first turn of one hold of the lock, where the worker is to claim again at once.
    fn go_on(&mut self, again: Option<Place>, bench: &mut Workbench<O>) -> Next
        ensures total { self.new.total ≡ self.old.total }
        ensures step { Preserves ⟦<O as Rules>⟧.all self.old.core.engine self.new.core.engine }
    {
        let Some(place) = again else {
            return Next::Again;
        };
        let Station { core, turns, .. } = self;
        turns.go_on();
        claim_on(core, turns, place, bench)
    }

    /// Turns of one hold of the lock, until one leaves this worker something to do: what that is,
    /// and how many turns were left before them and are after them. The worker claims again first
    /// where it is to.
    pub(crate) fn choose_some(
        &mut self,
        worker: u32,
        again: Option<Place>,
        bench: &mut Workbench<O>,
    ) -> (Next, u64, u64)
        ensures total { self.new.total ≡ self.old.total }
        ensures step { Preserves ⟦<O as Rules>⟧.all self.old.core.engine self.new.core.engine }
    {
        let before = self.turns.left();
        match self.go_on(again, bench) {
            Next::Again => {}
            next => return (next, before, self.turns.left()),
        }
        for _ in 1..TURNS_A_HOLD {
            match self.choose(worker, bench) {
                (Next::Again, _) => {}
                (next, left) => return (next, before, left),
            }
        }
        let (next, left) = self.choose(worker, bench);
        (next, before, left)
    }

    /// Exchanges what results that were taken have left for the leavings at hand, which were let
    /// go.
    pub(crate) fn swap_leavings(&mut self, bench: &mut Workbench<O>)
        ensures { self.new ≡ self.old }
    {
        self.core.swap_leavings(&mut bench.leavings);
    }

    /// A worker has spelled a copy.
    pub(crate) fn handed_in(&mut self, copy: HandedOut)
        ensures { self.new ≡ self.old }
    {
        self.turns.handed_in(copy);
    }

    /// A task's job of so many records of this input was taken: the same place, where its worker is
    /// to claim there again at once.
    fn goes_on(&mut self, place: Place, records: u64) -> Option<Place>
        ensures { self.new ≡ self.old }
    {
        if self.turns.goes_on(place, records) {
            Some(place)
        } else {
            None
        }
    }

    /// A worker that is to claim again at once doesn't.
    pub(crate) fn lets_go(&mut self, again: Option<Place>)
        ensures { self.new ≡ self.old }
    {
        if let Some(place) = again {
            self.turns.lets_go(place.task);
        }
    }

    /// What came of a task's job of so many records.
    pub(crate) fn finished(&mut self, task: u32, outcome: Result<(), CoreFault>, records: u64)
        ensures { self.new ≡ self.old }
    {
        self.turns.finished(task, outcome, records);
    }

    /// The job is down: a run was refused before it began.
    pub(crate) fn give_up(&mut self)
        ensures total { self.new.total ≡ self.old.total }
        ensures down { self.new.core.engine.held ≡ None }
    {
        let Station { core, .. } = self;
        let _ = core.fail();
    }

    /// Ends a run: readers are shown what is committed, and the job is down where the run is
    /// refused.
    pub(crate) fn end(&mut self) -> Result<(), RunFault>
        ensures total { self.new.total ≡ self.old.total }
        ensures down { IfErr result (λ _. self.new.core.engine.held ≡ None) }
    {
        let shown = self.publish();
        let end = match (self.turns.end(), shown) {
            (Ok(()), Err(RunFault::Memory)) => Err(RunFault::Memory),
            (end, _) => end,
        };
        if end.is_err() {
            self.give_up();
        }
        end
    }
}

/// The refusal of a run for this one of the writer.
fn refused(fault: OutputFault) -> RunFault
    ensures memory { fault ≡ OutputFault.Memory → result ≡ RunFault.Memory }
    ensures full { fault ≡ OutputFault.ReadersFull → result ≡ RunFault.ReadersFull }
{
    match fault {
        OutputFault::Memory => RunFault::Memory,
        OutputFault::ReadersFull => RunFault::ReadersFull,
        OutputFault::Closed => RunFault::Closed,
    }
}
