//! One turn of a worker on a core.

ghost use Rattle.std.specs.Prelude.{◌≡◌, ◌⊎◌, ◌-◌, [], Ok};
ghost use Rattle.dataflow_core.specs.Steps.{Preserves};
ghost use Rattle.engine.specs.Claimed.{OffersBehind};
ghost use Rattle.worker_turns.specs.Claiming.{ClaimsOnce};

use crate::bench::{Spelling, Workbench};
use claims::Work;
use commit_sink::Transactions;
use dataflow_core::{Core, CoreFault, Rules};
use operators::Operator;
use run_schedule::{Place, Step, Turns};
use snapshot_store::SnapshotStore;
use source_log::Partitions;
use std::alloc::Global;

/// So many entries of the work on a task's part are done in one turn.
const ENTRIES_A_TURN: u32 = 256;

/// So many entries of a copy are spelled at once with no lock held, at most, while its task waits.
const MOST_HANDED_OUT: u32 = 256 * ENTRIES_A_TURN;

/// What a worker does next.
#[derive(Clone, Copy, PartialEq, Eq, Debug)]
pub enum Next {
    /// Nothing: the run is over.
    Over,
    /// Nothing now.
    Idle,
    /// The next turn: this one's step is made.
    Again,
    /// The rows of a round of commits are shown to readers.
    Publish,
    /// The job at hand, with no lock held.
    Run,
    /// The copy at hand is spelled, with no lock held.
    Spell,
}

/// One turn: what this worker, counted from 0, does next. Every step but a task's work, and a copy
/// that is spelled elsewhere, is made here, and the turns are told what came of it.
pub fn take_turn<O: Operator, S: SnapshotStore, X: Transactions, P: Partitions<Record = O::Record>>(
    core: &mut Core<O, S, X, P>,
    turns: &mut Turns,
    worker: u32,
    bench: &mut Workbench<O>,
) -> Next
    ensures once { ClaimsOnce core.old core.new }
    ensures step { Preserves ⟦<O as Rules>⟧.all core.old.engine core.new.engine }
{
    match turns.choose(worker) {
        Step::Over => Next::Over,
        Step::Idle => Next::Idle,
        Step::Look => look(core, turns),
        Step::Tell(task) => tell(core, turns, task),
        Step::Work(place) => claim(core, turns, worker, place, bench),
        Step::Read(task) => read(core, turns, task),
        Step::Persist(task) => persist(core, turns, worker, task, bench),
        step => {
            turns.made(step, make(core, step));
            if ends_commits(core, step) {
                return Next::Publish;
            }
            Next::Again
        }
    }
}

/// Whether the step is the last of a round of commits.
fn ends_commits<O: Operator, S: SnapshotStore, X: Transactions, P: Partitions<Record = O::Record>>(
    core: &Core<O, S, X, P>,
    step: Step,
) -> bool {
    match step {
        Step::Commit(sink) => core.sinks().checked_sub(1) == Some(sink),
        _ => false,
    }
}

/// A task claims records at the head of its input, as many as the turns say at most, or takes the
/// barrier that may be there. A sink claims one, and gets the work on those behind it too.
fn claim<O: Operator, S: SnapshotStore, X: Transactions, P: Partitions<Record = O::Record>>(
    core: &mut Core<O, S, X, P>,
    turns: &mut Turns,
    worker: u32,
    place: Place,
    bench: &mut Workbench<O>,
) -> Next
    ensures once { ClaimsOnce core.old core.new }
    ensures step { Preserves ⟦<O as Rules>⟧.all core.old.engine core.new.engine }
{
    let most = turns.most(place.task);
    match core.claim_in(place.task, place.input, most, &mut bench.room) {
        Ok(job) => {
            let ahead = work_ahead(bench.alloc, core, place, most);
            let records = job.records().saturating_add(ahead.len() as u64);
            turns.claimed(worker, place.task, records);
            bench.put_job(place, job);
            bench.put_ahead(ahead);
            Next::Run
        }
        Err(fault) => {
            find_barrier(core, turns, place, fault);
            Next::Again
        }
    }
}

/// An operator that goes on claims records at the head of its input, as many as the turns say at
/// most, or takes the barrier that may be there. The turns hold its claim already.
pub fn claim_on<O: Operator, S: SnapshotStore, X: Transactions, P: Partitions<Record = O::Record>>(
    core: &mut Core<O, S, X, P>,
    turns: &mut Turns,
    place: Place,
    bench: &mut Workbench<O>,
) -> Next
    ensures once { ClaimsOnce core.old core.new }
    ensures step { Preserves ⟦<O as Rules>⟧.all core.old.engine core.new.engine }
{
    let most = turns.most(place.task);
    match core.claim_in(place.task, place.input, most, &mut bench.room) {
        Ok(job) => {
            turns.claimed_on(place.task, job.records());
            bench.put_job(place, job);
            Next::Run
        }
        Err(fault) => {
            turns.lets_go(place.task);
            find_barrier(core, turns, place, fault);
            Next::Again
        }
    }
}

/// A task's claim was refused: it takes the barrier that may be there, or the turns are told why.
fn find_barrier<O: Operator, S: SnapshotStore, X: Transactions, P: Partitions<Record = O::Record>>(
    core: &mut Core<O, S, X, P>,
    turns: &mut Turns,
    place: Place,
    fault: CoreFault,
)
    ensures once { ClaimsOnce core.old core.new }
    ensures step { Preserves ⟦<O as Rules>⟧.all core.old.engine core.new.engine }
{
    if fault == CoreFault::NotReady && turns.awaits_barriers() {
        let outcome = core.take_barrier(place.task, place.input);
        turns.took_barrier(place, outcome);
    } else {
        turns.refused(Step::Work(place), fault);
    }
}

/// The work on the records behind the first of a sink's input, so that it is on so many with the
/// first, or none where memory is refused. Of an operator's there is none.
fn work_ahead<O: Operator, S: SnapshotStore, X: Transactions, P: Partitions<Record = O::Record>>(
    alloc: Global,
    core: &Core<O, S, X, P>,
    place: Place,
    most: u32,
) -> Vec<Work<O>>
    ensures { (result.items ≡ [])
        ⊎ OffersBehind core.now.engine place.task place.input (most - 1) (Ok result) }
{
    let behind = most.saturating_sub(1) as usize;
    if behind == 0 {
        return Vec::new(alloc);
    }
    match core.offer_behind(place.task, place.input, behind) {
        Ok(works) => works,
        Err(_) => Vec::new(alloc),
    }
}

/// Those that a task sends to are told of the channels in which a record stands, or a barrier may.
fn tell<O: Operator, S: SnapshotStore, X: Transactions, P: Partitions<Record = O::Record>>(
    core: &Core<O, S, X, P>,
    turns: &mut Turns,
    task: u32,
) -> Next {
    let awaits_barriers = turns.awaits_barriers();
    let filled = mark_heads(core, turns, task, awaits_barriers);
    turns.told(task, filled);
    Next::Again
}

/// Every task is told of the channels in which a record or a barrier stands.
fn look<O: Operator, S: SnapshotStore, X: Transactions, P: Partitions<Record = O::Record>>(
    core: &Core<O, S, X, P>,
    turns: &mut Turns,
) -> Next {
    for task in 0..turns.tasks() {
        if let Ok(task) = u32::try_from(task) {
            let _ = mark_heads(core, turns, task, false);
        }
    }
    Next::Again
}

/// Of the channels that a task sends on, those in which something stands are marked, or all. How
/// many have something is told.
fn mark_heads<O: Operator, S: SnapshotStore, X: Transactions, P: Partitions<Record = O::Record>>(
    core: &Core<O, S, X, P>,
    turns: &mut Turns,
    task: u32,
    is_all: bool,
) -> usize {
    let mut filled: usize = 0;
    for number in 0..turns.ends_of(task) {
        if let Some(end) = turns.end_of(task, number) {
            let has_head = core.has_head(end.channel);
            if has_head || is_all {
                turns.mark(end.place);
            }
            filled = filled.saturating_add(usize::from(has_head));
        }
    }
    filled
}

/// A source sends its next records: as many as the turns say, at most.
fn read<O: Operator, S: SnapshotStore, X: Transactions, P: Partitions<Record = O::Record>>(
    core: &mut Core<O, S, X, P>,
    turns: &mut Turns,
    task: u32,
) -> Next
    ensures once { ClaimsOnce core.old core.new }
    ensures step { Preserves ⟦<O as Rules>⟧.all core.old.engine core.new.engine }
{
    let (records, outcome) = core.read_some(task, turns.reads());
    turns.read(task, records, outcome);
    Next::Again
}

/// Hands out a task's copy, goes on with the work on its part, or puts that in the store.
fn persist<O: Operator, S: SnapshotStore, X: Transactions, P: Partitions<Record = O::Record>>(
    core: &mut Core<O, S, X, P>,
    turns: &mut Turns,
    worker: u32,
    task: u32,
    bench: &mut Workbench<O>,
) -> Next
    ensures once { ClaimsOnce core.old core.new }
    ensures step { Preserves ⟦<O as Rules>⟧.all core.old.engine core.new.engine }
{
    match hand_out(core, turns, worker, task) {
        Some(spelling) => {
            bench.put_spelling(spelling);
            Next::Spell
        }
        None => {
            let outcome = core.persist_some(task, ENTRIES_A_TURN);
            turns.persisted(task, outcome);
            Next::Again
        }
    }
}

/// Hands out a task's copy, where it may be spelled with no lock held, and is worth that.
fn hand_out<O: Operator, S: SnapshotStore, X: Transactions, P: Partitions<Record = O::Record>>(
    core: &mut Core<O, S, X, P>,
    turns: &mut Turns,
    worker: u32,
    task: u32,
) -> Option<Spelling<O>>
    ensures { core.new ≡ core.old }
{
    if !turns.may_hand_out(task) {
        return None;
    }
    let work = core.hand_out(task, MOST_HANDED_OUT)?;
    let copy = turns.handed_out(worker, task, work.entries() as u64);
    Some(Spelling { copy, work })
}

/// Makes a step that is no record's, and no call for a task's part.
fn make<O: Operator, S: SnapshotStore, X: Transactions, P: Partitions<Record = O::Record>>(
    core: &mut Core<O, S, X, P>,
    step: Step,
) -> Result<(), CoreFault>
    ensures once { ClaimsOnce core.old core.new }
    ensures step { Preserves ⟦<O as Rules>⟧.all core.old.engine core.new.engine }
{
    match step {
        Step::Restart => restart(core),
        Step::Trigger => core.trigger().map(|_| ()),
        Step::Inject(task) => core.inject(task),
        Step::Complete => core.complete().map(|_| ()),
        Step::Commit(sink) => core.commit(sink),
        Step::Read(_) | Step::Persist(_) | Step::Work(_) => Ok(()),
        Step::Over | Step::Idle | Step::Look | Step::Tell(_) => Ok(()),
    }
}

/// A restart, which drops the claims.
fn restart<O: Operator, S: SnapshotStore, X: Transactions, P: Partitions<Record = O::Record>>(
    core: &mut Core<O, S, X, P>,
) -> Result<(), CoreFault>
    ensures once { ClaimsOnce core.old core.new }
    ensures step { Preserves ⟦<O as Rules>⟧.all core.old.engine core.new.engine }
{
    core.restart()?;
    Ok(())
}
