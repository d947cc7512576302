//! Runs a job.

ghost use Rattle.std.specs.Prelude.{◌≡◌, ◌≤◌};
ghost use Rattle.job_input.specs.Judged.{IsJudged};

use crate::committed::{Committed, durable_of};
use crate::opening::open;
use crate::options::Options;
use crate::printing::print_by;
use crate::refusal::{RunRefusal, finish_run};
use absflow_run::Refusal;
use commit_sink::Transactions;
use dataflow_core::Core;
use job_input::{Input, JobInput, judge};
use operators::{Operator, Row};
use snapshot_store::SnapshotStore;
use source_log::{MemoryLog, Partitions};
use std::alloc::Global;
use std::io::{Read, Write};
use std::marker::Brand;
use std::mem::forget;
use std::sync::ledger::{Blank, Ledger};
use std::sync::{Mutex, Wait};
use std::thread::Threads;
use std::time::Clock;
use thread_runner::{NoPause, Pause, Report, RunFault, Schedule, Station, run_batched};

/// A job that goes down is restarted so often.
const RESTARTS: u64 = 8;

/// Takes the job of this core to rest and prints what is committed, also where the run is refused,
/// and hands over the partitions and the devices. A job that goes down is restarted so often.
fn run_and_print<
    O: Operator + Send + Sync,
    S: SnapshotStore + Drop + Send + Sync,
    X: Transactions + Drop + Send + Sync,
    P: Partitions<Record = O::Record> + Drop + Send + Sync,
    L: Ledger + Send + Sync,
    H: Pause + Sync,
    R: Threads + Wait + Clock + Sync,
    W: Write,
>(
    rt: &R,
    alloc: Global,
    core: Core<O, S, X, P>,
    schedule: Schedule,
    blank: Blank,
    options: Options,
    restarts: u64,
    pause: &H,
    out: &mut W,
) -> ((P, S, Committed<X>), Result<Report, RunRefusal<'static>>)
where
    O::Record: Send + Sync,
    O::Key: Send + Sync,
    O::State: Send + Sync,
    requires name { blank.name ≡ L.name }
    requires parts { (blank.parts ≡ L.parts) × (L.parts ≡ 65) }
{
    let Options {
        workers,
        every,
        turns,
        batch,
    } = options;
    let (station, mut share) = Station::<O, S, X, P, L, &R>::new(core, schedule, blank);
    let station = Mutex::new(station);
    let report = run_batched(
        rt,
        alloc,
        &station,
        &mut share,
        workers as usize,
        every,
        turns,
        restarts,
        pause,
        batch,
    );
    let core = station.into_inner().into_core();
    let durable = durable_of(core);
    let printed = print_by(rt, alloc, &durable.2, workers, out);
    (durable, told(report, printed))
}

/// What is told of a run and of what was printed: the run's refusal comes first.
fn told(
    report: Result<Report, RunFault>,
    printed: Result<(), Refusal>,
) -> Result<Report, RunRefusal<'static>> {
    let report = report?;
    printed?;
    Ok(report)
}

/// Takes the job of this core to rest and prints what is committed, also where the run is refused.
/// A job that goes down is restarted so often. It answers how many records the workers have worked.
pub fn run_core<
    O: Operator + Send + Sync,
    S: SnapshotStore + Drop + Send + Sync,
    X: Transactions + Drop + Send + Sync,
    P: Partitions<Record = O::Record> + Drop + Send + Sync,
    L: Ledger + Send + Sync,
    H: Pause + Sync,
    R: Threads + Wait + Clock + Sync,
    W: Write,
>(
    rt: &R,
    alloc: Global,
    core: Core<O, S, X, P>,
    schedule: Schedule,
    blank: Blank,
    options: Options,
    restarts: u64,
    pause: &H,
    out: &mut W,
) -> Result<Report, RunRefusal<'static>>
where
    O::Record: Send + Sync,
    O::Key: Send + Sync,
    O::State: Send + Sync,
    requires name { blank.name ≡ L.name }
    requires parts { (blank.parts ≡ L.parts) × (L.parts ≡ 65) }
{
    run_and_print::<O, S, X, P, L, H, R, W>(
        rt, alloc, core, schedule, blank, options, restarts, pause, out,
    )
    .1
}

/// Runs a job that was judged. Its partitions and devices are not dropped: the program is at its
/// end, and to give back the rows and records one by one takes a tenth of a run.
fn run_judged<L: Ledger + Send + Sync, R: Threads + Wait + Clock + Sync, W: Write>(
    rt: &R,
    alloc: Global,
    input: JobInput,
    blank: Blank,
    options: Options,
    out: &mut W,
) -> Result<(), RunRefusal<'static>>
    requires judged { IsJudged input.job input.graph
        (⟦<MemoryLog<Row> as Partitions>⟧.records input.log) }
    requires name { blank.name ≡ L.name }
    requires parts { (blank.parts ≡ L.parts) × (L.parts ≡ 65) }
{
    let JobInput { job, graph, log } = input;
    let (core, schedule) = open(alloc, &job, graph, log)?;
    let (durable, outcome) = run_and_print::<_, _, _, _, L, _, _, _>(
        rt, alloc, core, schedule, blank, options, RESTARTS, &NoPause, out,
    );
    forget(durable);
    outcome?;
    Ok(())
}

/// Runs a job over its inputs, one for each source task in task order, until it is at rest: the
/// committed rows of each sink subtask, also where the run is refused. It answers the exit status:
/// 0, or 1 where the job, its inputs or the run were refused.
pub fn run_job<
    'a,
    R: Threads + Wait + Clock + Sync,
    J: Read + Drop,
    F: Read + Drop + Send,
    W: Write,
    E: Write,
>(
    rt: &R,
    alloc: Global,
    job: Input<'a, J>,
    inputs: Vec<Input<'a, F>>,
    options: Options,
    out: &mut W,
    err: &mut E,
) -> u8
    ensures { result ≤ 1 }
{
    let outcome = match judge(rt, alloc, job, inputs, options.workers) {
        Ok(input) => { run_judged::<Brand, R, W>(rt, alloc, input, Blank::new(65), options, out) }
        Err(fault) => Err(RunRefusal::from(fault)),
    };
    finish_run(outcome, out, err)
}
