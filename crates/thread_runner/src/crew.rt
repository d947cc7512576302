//! Workers on a station.

ghost use Rattle.std.specs.Prelude.{◌≡◌, ◌+◌, ◌≤◌, ◌<◌, ◌^◌, IfOk, vec_len};

use crate::patience::Patience;
use crate::pause::Pause;
use crate::station::Station;
use commit_sink::Transactions;
use operators::Operator;
use run_schedule::{Place, RunFault};
use snapshot_store::SnapshotStore;
use source_log::Partitions;
use std::alloc::Global;
use std::sync::ledger::{Ledger, Share};
use std::sync::{Mutex, Wait};
use std::thread;
use std::thread::Threads;
use std::time::Clock;
use worker_turns::{Next, Workbench};

/// What a run did.
#[derive(Clone, Copy, PartialEq, Eq, Debug)]
pub struct Report {
    /// How many records were worked: those of the jobs whose results were taken.
    pub finished: u128,
}

/// A worker's part of the total.
#[derive(Drop)]
struct Worker<L: Ledger> {
    share: Share<L>,
    finished: u128,
    patience: Patience,
    /// Counted from 0.
    number: u32,
    ghost one_part: { share.parts ≡ 1 },
    ghost counted: { share.amount ≡ finished },
}

impl<L: Ledger> Worker<L> {
    fn new(number: u32, share: Share<L>) -> Worker<L>
        requires { (share.parts ≡ 1) × (share.amount ≡ 0) }
    {
        Worker {
            share,
            finished: 0,
            patience: Patience::new(),
            number,
        }
    }

    /// Takes turns until the run is over.
    fn work<
        O: Operator,
        S: SnapshotStore + Drop,
        X: Transactions + Drop,
        P: Partitions<Record = O::Record> + Drop,
        W: Wait + Drop,
        H: Pause,
        R: Wait + Clock,
    >(
        &mut self,
        rt: &R,
        alloc: Global,
        station: &Mutex<Station<O, S, X, P, L, W>>,
        turns: u64,
        pause: &H,
        batch: u32,
    ) {
        let mut bench = Workbench::new(alloc);
        for _ in 0..turns {
            bench.tidy(batch);
            match self.take_turns(rt, station, &mut bench) {
                Next::Over => return,
                Next::Idle => self.idled(rt, station),
                Next::Again => self.made(rt, station),
                Next::Publish => {
                    let _ = station.lock(rt).publish();
                    self.made(rt, station);
                }
                Next::Run => {
                    self.run_job(rt, station, turns, pause, &mut bench);
                    self.rests_if_tired(rt, station, &mut bench);
                }
                Next::Spell => self.spell(rt, &mut bench),
            }
        }
        self.leave(&mut station.lock(rt), &mut bench);
    }

    /// A worker that is tired hands in what was done, and rests, where another one is awake.
    fn rests_if_tired<
        O: Operator,
        S: SnapshotStore + Drop,
        X: Transactions + Drop,
        P: Partitions<Record = O::Record> + Drop,
        W: Wait + Drop,
        R: Wait + Clock,
    >(&mut self, rt: &R, station: &Mutex<Station<O, S, X, P, L, W>>, bench: &mut Workbench<O>) {
        if self.patience.is_tired() {
            self.leave(&mut station.lock(rt), bench);
            self.rests(rt, station, true);
        }
    }

    /// Spells a task's copy with no lock held.
    fn spell<O: Operator, R: Clock>(&mut self, rt: &R, bench: &mut Workbench<O>) {
        bench.spell();
        self.patience.ran_job(rt);
    }

    /// Hands in what was done last, if there is something, and takes turns in the same hold of the
    /// lock. What results have left is at hand after it.
    fn take_turns<
        O: Operator,
        S: SnapshotStore + Drop,
        X: Transactions + Drop,
        P: Partitions<Record = O::Record> + Drop,
        W: Wait + Drop,
        R: Wait + Clock,
    >(
        &mut self,
        rt: &R,
        station: &Mutex<Station<O, S, X, P, L, W>>,
        bench: &mut Workbench<O>,
    ) -> Next {
        let mut held = station.lock(rt);
        self.patience.has_lock(rt);
        let again = self.hand_in(&mut held, bench);
        let (next, before, left) = held.choose_some(self.number, again, bench);
        held.swap_leavings(bench);
        drop(held);
        self.patience.gave_lock(rt);
        self.patience.took_turns(before, left);
        next
    }

    /// A step was made. A worker that others can do without rests, where another one is awake.
    fn made<
        O: Operator,
        S: SnapshotStore + Drop,
        X: Transactions + Drop,
        P: Partitions<Record = O::Record> + Drop,
        W: Wait + Drop,
        R: Wait + Clock,
    >(&mut self, rt: &R, station: &Mutex<Station<O, S, X, P, L, W>>) {
        self.patience.made_step();
        let is_tired = self.patience.is_tired();
        self.rests(rt, station, is_tired);
    }

    /// Nothing was to be done. The worker rests, or waits a little.
    fn idled<
        O: Operator,
        S: SnapshotStore + Drop,
        X: Transactions + Drop,
        P: Partitions<Record = O::Record> + Drop,
        W: Wait + Drop,
        R: Wait + Clock,
    >(&mut self, rt: &R, station: &Mutex<Station<O, S, X, P, L, W>>) {
        let is_tired = self.patience.is_tired();
        if !self.rests(rt, station, is_tired) {
            self.patience.wait(rt);
        }
    }

    /// A worker that is tired rests, where another one is awake. Whether it did.
    fn rests<
        O: Operator,
        S: SnapshotStore + Drop,
        X: Transactions + Drop,
        P: Partitions<Record = O::Record> + Drop,
        W: Wait + Drop,
        R: Wait + Clock,
    >(&mut self, rt: &R, station: &Mutex<Station<O, S, X, P, L, W>>, is_tired: bool) -> bool {
        if !is_tired || !station.lock(rt).rests() {
            return false;
        }
        for _ in 0..self.patience.rests() {
            self.patience.rest(rt);
            if is_seen_over(station) {
                break;
            }
        }
        station.lock(rt).wakes();
        true
    }

    /// Runs a task's job with no lock held. It is not done where the run ended while it had to
    /// wait.
    fn run_job<
        O: Operator,
        S: SnapshotStore + Drop,
        X: Transactions + Drop,
        P: Partitions<Record = O::Record> + Drop,
        W: Wait + Drop,
        H: Pause,
        R: Wait + Clock,
    >(
        &mut self,
        rt: &R,
        station: &Mutex<Station<O, S, X, P, L, W>>,
        turns: u64,
        pause: &H,
        bench: &mut Workbench<O>,
    ) {
        let Some((attempt, serial)) = bench.ticket() else {
            return;
        };
        for _ in 0..turns {
            if pause.before_run(attempt, serial) {
                break;
            }
            if !station.lock(rt).wait() {
                return bench.drop_job();
            }
        }
        bench.run();
        pause.after_run(attempt, serial);
        self.patience.ran_job(rt);
    }

    /// Hands in what was done, if there is something: where the worker is to claim again at once,
    /// if it is.
    fn hand_in<
        O: Operator,
        S: SnapshotStore + Drop,
        X: Transactions + Drop,
        P: Partitions<Record = O::Record> + Drop,
        W: Wait + Drop,
    >(
        &mut self,
        station: &mut Station<O, S, X, P, L, W>,
        bench: &mut Workbench<O>,
    ) -> Option<Place> {
        if let Some(copy) = bench.take_copy() {
            station.handed_in(copy);
        }
        let Worker {
            share,
            finished,
            ..
        } = self;
        let (records, again) = station.take_batch(share, bench);
        *finished += records;
        again
    }

    /// Hands in what was done, if there is something, and claims nothing.
    fn leave<
        O: Operator,
        S: SnapshotStore + Drop,
        X: Transactions + Drop,
        P: Partitions<Record = O::Record> + Drop,
        W: Wait + Drop,
    >(&mut self, station: &mut Station<O, S, X, P, L, W>, bench: &mut Workbench<O>) {
        let again = self.hand_in(station, bench);
        station.lets_go(again);
    }
}

/// Whether the run is over, as far as that is seen: it is not asked while a worker has the lock.
fn is_seen_over<
    O: Operator,
    S: SnapshotStore + Drop,
    X: Transactions + Drop,
    P: Partitions<Record = O::Record> + Drop,
    L: Ledger,
    W: Wait + Drop,
>(station: &Mutex<Station<O, S, X, P, L, W>>) -> bool {
    match station.try_lock() {
        Some(held) => held.is_over(),
        None => false,
    }
}

/// Takes the job to rest, as [`run_batched`] does with a batch of one record.
pub fn run<
    O: Operator + Send,
    S: SnapshotStore + Drop + Send,
    X: Transactions + Drop + Send,
    P: Partitions<Record = O::Record> + Drop + Send,
    L: Ledger + Send + Sync,
    W: Wait + Drop + Send,
    H: Pause + Sync,
    R: Threads + Wait + Clock + Sync,
>(
    rt: &R,
    alloc: Global,
    station: &Mutex<Station<O, S, X, P, L, W>>,
    all: &mut Share<L>,
    workers: usize,
    every: u64,
    turns: u64,
    restarts: u64,
    pause: &H,
) -> Result<Report, RunFault>
where
    O::Record: Send,
    O::Key: Send + Sync,
    O::State: Send + Sync,
    requires whole { (all.old.parts ≡ L.parts) × (L.parts ≡ 65) }
    ensures parts { all.new.parts ≡ all.old.parts }
    ensures finished { IfOk result (λ r. all.new.amount ≡ all.old.amount + r.finished) }
{
    run_batched(
        rt, alloc, station, all, workers, every, turns, restarts, pause, 1,
    )
}

/// Takes the job to rest, by so many workers, or as many of them as can be of use, and says how
/// many records they have worked. A job that is down is restarted first. A checkpoint is triggered
/// after every so many of these records (0: none but the last), and a last one is committed. An
/// operator's claims are of so many records at first, the `batch`, and of more while there are
/// more. Where the run is refused otherwise than for its workers, the job is down.
pub fn run_batched<
    O: Operator + Send,
    S: SnapshotStore + Drop + Send,
    X: Transactions + Drop + Send,
    P: Partitions<Record = O::Record> + Drop + Send,
    L: Ledger + Send + Sync,
    W: Wait + Drop + Send,
    H: Pause + Sync,
    R: Threads + Wait + Clock + Sync,
>(
    rt: &R,
    alloc: Global,
    station: &Mutex<Station<O, S, X, P, L, W>>,
    all: &mut Share<L>,
    workers: usize,
    every: u64,
    turns: u64,
    restarts: u64,
    pause: &H,
    batch: u32,
) -> Result<Report, RunFault>
where
    O::Record: Send,
    O::Key: Send + Sync,
    O::State: Send + Sync,
    requires whole { (all.old.parts ≡ L.parts) × (L.parts ≡ 65) }
    requires batch { (1 ≤ batch) × (batch ≤ 1024) }
    ensures parts { all.new.parts ≡ all.old.parts }
    ensures finished { IfOk result (λ r. all.new.amount ≡ all.old.amount + r.finished) }
{
    if workers == 0 || workers > 64 {
        return Err(RunFault::BadWorkers);
    }
    let useful = station.lock(rt).useful(workers);
    run_crew(
        rt, alloc, station, all, useful, every, turns, restarts, pause, batch,
    )
}

/// The same by this many workers, each of whom can be of use.
fn run_crew<
    O: Operator + Send,
    S: SnapshotStore + Drop + Send,
    X: Transactions + Drop + Send,
    P: Partitions<Record = O::Record> + Drop + Send,
    L: Ledger + Send + Sync,
    W: Wait + Drop + Send,
    H: Pause + Sync,
    R: Threads + Wait + Clock + Sync,
>(
    rt: &R,
    alloc: Global,
    station: &Mutex<Station<O, S, X, P, L, W>>,
    all: &mut Share<L>,
    workers: usize,
    every: u64,
    turns: u64,
    restarts: u64,
    pause: &H,
    batch: u32,
) -> Result<Report, RunFault>
where
    O::Record: Send,
    O::Key: Send + Sync,
    O::State: Send + Sync,
    requires whole { (all.old.parts ≡ L.parts) × (L.parts ≡ 65) }
    requires some { 0 < workers }
    requires few { workers ≤ 64 }
    requires batch { 1 ≤ batch }
    ensures parts { all.new.parts ≡ all.old.parts }
    ensures finished { IfOk result (λ r. all.new.amount ≡ all.old.amount + r.finished) }
{
    let Ok(mut crew) = Vec::with_capacity(alloc, workers) else {
        station.lock(rt).give_up();
        return Err(RunFault::Memory);
    };
    station
        .lock(rt)
        .begin(workers, every, turns, restarts, batch);
    for _ in 0..workers {
        let number = crew.len() as u32;
        crew.push_reserved(Worker::new(number, all.split_off(1, 0)));
    }
    thread::for_each_mut(
        rt,
        crew.as_mut_slice(),
        workers,
        &|_: usize, worker: &mut Worker<L>| worker.work(rt, alloc, station, turns, pause, batch),
    );
    let finished = gather(rt, station, all, crew);
    station.lock(rt).end()?;
    Ok(Report { finished })
}

/// Merges the workers' shares, and says how many records they have worked.
fn gather<
    O: Operator,
    S: SnapshotStore + Drop,
    X: Transactions + Drop,
    P: Partitions<Record = O::Record> + Drop,
    L: Ledger,
    W: Wait + Drop,
    R: Wait,
>(
    rt: &R,
    station: &Mutex<Station<O, S, X, P, L, W>>,
    all: &mut Share<L>,
    mut crew: Vec<Worker<L>>,
) -> u128
    ensures parts { all.new.parts ≡ all.old.parts + vec_len crew }
    ensures finished { all.new.amount ≡ all.old.amount + result }
{
    let mut sum: u128 = 0;
    while let Some(
        Worker {
            share,
            finished,
            ..
        },
    ) = crew.pop()
    {
        all.merge(share);
        station.lock(rt).audit(all);
        sum += finished;
    }
    sum
}
