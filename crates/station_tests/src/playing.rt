//! A run beside readers, and what comes after it.

ghost use Rattle.std.specs.Prelude.{◌≡◌};

use crate::watchers::{Meeting, WATCHERS, Watcher, join_all, start_one};
use commit_sink::Transactions;
use dataflow_core::Core;
use operators::Operator;
use snapshot_store::SnapshotStore;
use source_log::Partitions;
use std::alloc::Global;
use std::sync::ledger::{Blank, Ledger};
use std::sync::{Arc, Mutex, Wait};
use std::thread::{JoinHandle, Threads, join};
use std::time::Clock;
use thread_runner::{OutputFault, OutputReader, Report, RunFault, Schedule, Station, run};

/// After so many turns a run is given up.
const TURNS: u64 = 1_000_000_000;

/// How a run is made: by so many workers, with a checkpoint after so many jobs.
#[derive(Clone, Copy)]
pub(crate) struct How {
    pub(crate) workers: usize,
    pub(crate) every: u64,
}

/// What readers have read after a run.
#[derive(Drop)]
pub(crate) struct After {
    /// What a reader read in another thread, which had learned there what was published.
    pub(crate) told: Option<Vec<Vec<u8>>>,
    /// Whether the job has failed then, and was restarted.
    pub(crate) was_restarted: bool,
    /// What that reader read afterwards.
    pub(crate) again: Option<Vec<Vec<u8>>>,
    /// What another one read, which was told nothing.
    pub(crate) untold: Option<Vec<Vec<u8>>>,
    /// How many readers were handed out afterwards, and why no more.
    pub(crate) left: (usize, Option<RunFault>),
    reader: OutputReader,
}

/// Four of the station's readers look on, each in a thread of its own.
fn start<
    O: Operator,
    S: SnapshotStore,
    X: Transactions,
    P: Partitions<Record = O::Record>,
    L: Ledger,
    W: Wait + Drop,
    R: Threads,
>(
    rt: &R,
    alloc: Global,
    station: &mut Station<O, S, X, P, L, W>,
    meeting: &Arc<Meeting, Global>,
) -> Vec<JoinHandle<Watcher>> {
    let mut watchers = Vec::new(alloc);
    for _ in 0..WATCHERS {
        if let Ok(reader) = station.reader() {
            let _ = start_one(rt, alloc, reader, meeting, &mut watchers);
        }
    }
    watchers
}

/// A reader that is told, in another thread, what the station publishes, and what it reads there.
fn told_there<
    O: Operator,
    S: SnapshotStore,
    X: Transactions,
    P: Partitions<Record = O::Record>,
    L: Ledger,
    W: Wait + Drop,
    R: Threads + Sync,
>(rt: &R, station: &mut Station<O, S, X, P, L, W>) -> Option<(OutputReader, Option<Vec<Vec<u8>>>)> {
    let mut reader = station.reader().ok()?;
    let told = station.publish().ok()?;
    let there = move || {
        reader.learn(told);
        let rows = reader.read(0).ok();
        (reader, rows)
    };
    Some(join(rt, there, || ()).0)
}

/// What a new reader reads that is told nothing.
fn read_untold<
    O: Operator,
    S: SnapshotStore,
    X: Transactions,
    P: Partitions<Record = O::Record>,
    L: Ledger,
    W: Wait + Drop,
>(station: &mut Station<O, S, X, P, L, W>) -> Option<Vec<Vec<u8>>> {
    let mut reader = station.reader().ok()?;
    reader.read(0).ok()
}

/// How many readers a station hands out, and why no more.
fn readers_left<
    O: Operator,
    S: SnapshotStore,
    X: Transactions,
    P: Partitions<Record = O::Record>,
    L: Ledger,
    W: Wait + Drop,
>(station: &mut Station<O, S, X, P, L, W>) -> (usize, Option<RunFault>) {
    let mut count: usize = 0;
    for _ in 0..20 {
        match station.reader() {
            Ok(_) => count = count.saturating_add(1),
            Err(fault) => return (count, Some(fault)),
        }
    }
    (count, None)
}

/// What readers read when the job has come to rest, and once it has failed and was restarted.
fn read_after<
    O: Operator,
    S: SnapshotStore,
    X: Transactions,
    P: Partitions<Record = O::Record>,
    L: Ledger,
    W: Wait + Drop,
    R: Threads + Sync,
>(rt: &R, station: &mut Station<O, S, X, P, L, W>) -> Option<After> {
    let (mut reader, told) = told_there(rt, station)?;
    let was_restarted = station.fail().is_ok() && station.restart().is_ok();
    let again = reader.read(0).ok();
    let untold = read_untold(station);
    let left = readers_left(station);
    Some(After {
        told,
        was_restarted,
        again,
        untold,
        left,
        reader,
    })
}

/// What a run came to, what the readers beside it have found, and what came after it.
#[derive(Drop)]
pub(crate) struct Played {
    pub(crate) report: Result<Report, RunFault>,
    pub(crate) watchers: Vec<Watcher>,
    pub(crate) after: After,
    /// Why a read is refused once the core was handed out.
    pub(crate) closed: Option<OutputFault>,
}

/// Runs the job of this core with four readers beside it, each in a thread of its own.
pub(crate) fn play<
    O: Operator + Send,
    S: SnapshotStore + Drop + Send,
    X: Transactions + Drop + Send,
    P: Partitions<Record = O::Record> + Drop + Send,
    L: Ledger + Send + Sync,
    R: Threads + Wait + Clock + Sync,
>(
    rt: &R,
    alloc: Global,
    core: Core<O, S, X, P>,
    schedule: Schedule,
    blank: Blank,
    how: How,
    meeting: &Arc<Meeting, Global>,
) -> Option<Played>
where
    O::Record: Send,
    O::Key: Send + Sync,
    O::State: Send + Sync,
    requires name { blank.name ≡ L.name }
    requires parts { (blank.parts ≡ L.parts) × (L.parts ≡ 65) }
{
    let How { workers, every } = how;
    let opened = Station::<O, S, X, P, L, &R>::with_readers(rt, alloc, core, schedule, blank);
    let (mut station, mut share) = opened.ok()?;
    let watchers = start(rt, alloc, &mut station, meeting);
    let station = Mutex::new(station);
    let pause: &Meeting = meeting;
    let report = run(
        rt, alloc, &station, &mut share, workers, every, TURNS, 0, pause,
    );
    meeting.ends();
    let watchers = join_all(rt, alloc, watchers);
    let mut station = station.into_inner();
    let after = read_after(rt, &mut station);
    drop(station.into_core());
    let mut after = after?;
    let closed = after.reader.read(0).err();
    Some(Played {
        report,
        watchers,
        after,
        closed,
    })
}
