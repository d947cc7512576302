//! What a checkpoint of a large state costs. The words are how many keys an operator counts, one
//! row each, and how many checkpoints are measured then, one after the other, by the calls that a
//! worker makes. Standard output says how long the operator's part is, and is the same each time;
//! standard error has three numbers of nanoseconds: of the call that takes the operator's barrier,
//! of a whole checkpoint, and of the longest call of a checkpoint, each the least of those that are
//! measured. Two are taken before them, since from the third on the store drops an older part each
//! time. `tests/bench_checkpoints.sh` compares them for 1,000 keys and for many more.
#![tactic(auto)]

use abs_codec::{Codec, Text};
use commit_sink::{MemoryTransactions, Transactions};
use dataflow_core::{Core, Persisted};
use job_graph::Graph;
use job_spec::JobSpec;
use operators::{Operator, Row, RowOp};
use snapshot_store::{MemoryStore, SnapshotStore};
use source_log::{MemoryLog, Partitions};
use std::alloc::{AllocError, Global};
use std::time::{Clock, Instant};
use std::{env, io};

/// A source and an operator that counts by key, whose rows go nowhere: tasks 0 and 1.
const JOB: &str =
    r#"{"vertices":[{"name":"s","kind":"source"},{"name":"c","kind":"count"}],"edges":[{"from":"s","to":"c"}]}"#;

/// So many entries are worked in one call, as a worker does.
const ENTRIES: u32 = 256;

/// So many are spelled at once where no call is made meanwhile, as a worker does.
const ENTRIES_ELSEWHERE: u32 = 65_536;

/// So many bytes are more than a processor's caches hold.
const COOL: usize = 67_108_864;

/// A part takes fewer calls.
const MOST_CALLS: u64 = 1_000_000_000;

/// Nanoseconds.
#[derive(Clone, Copy)]
struct Cost {
    barrier: u64,
    whole: u64,
    longest: u64,
}

impl Cost {
    /// The least of each.
    fn least(self, other: Cost) -> Cost {
        Cost {
            barrier: self.barrier.min(other.barrier),
            whole: self.whole.min(other.whole),
            longest: self.longest.min(other.longest),
        }
    }
}

/// The nanoseconds since then.
fn since<R: Clock>(rt: &R, start: Instant) -> Option<u64> {
    let taken = start.elapsed(rt).ok()?;
    u64::try_from(taken.as_nanos()).ok()
}

/// One row of each key.
fn put_rows(alloc: Global, log: &mut MemoryLog<Row>, keys: u64) -> Option<()> {
    for number in 0..keys {
        let name = format!(in alloc; "key{number}").ok()?;
        let k = Text::from_str(alloc, &name).ok()?;
        let row = Row { k, v: 1 };
        if !row.fits() {
            return None;
        }
        log.append(0, row).ok()?;
    }
    Some(())
}

/// The operator counts so many rows.
fn count<O: Operator, S: SnapshotStore, X: Transactions, P: Partitions<Record = O::Record>>(
    core: &mut Core<O, S, X, P>,
    rows: u64,
) -> Option<()> {
    for _ in 0..rows {
        core.read(0).ok()?;
        let job = core.claim(1, 0).ok()?;
        core.finish(job.run()).ok()?;
    }
    Some(())
}

/// The next entries of the operator's part are handed out, if there are enough, and spelled: how
/// long it took to hand them out.
fn spell_elsewhere<
    O: Operator,
    S: SnapshotStore,
    X: Transactions,
    P: Partitions<Record = O::Record>,
    R: Clock,
>(rt: &R, alloc: Global, core: &mut Core<O, S, X, P>) -> Option<u64> {
    let start = Instant::now(rt).ok()?;
    let work = core.hand_out(1, ENTRIES_ELSEWHERE);
    let taken = since(rt, start)?;
    if let Some(work) = work {
        work.run(alloc);
    }
    Some(taken)
}

/// The operator's part goes into the store, by as many calls as it takes: the longest of them.
fn persist<
    O: Operator,
    S: SnapshotStore,
    X: Transactions,
    P: Partitions<Record = O::Record>,
    R: Clock,
>(rt: &R, alloc: Global, core: &mut Core<O, S, X, P>) -> Option<u64> {
    let mut longest: u64 = 0;
    for _ in 0..MOST_CALLS {
        longest = longest.max(spell_elsewhere(rt, alloc, core)?);
        let start = Instant::now(rt).ok()?;
        let persisted = core.persist_some(1, ENTRIES).ok()?;
        longest = longest.max(since(rt, start)?);
        if persisted == Persisted::Done {
            return Some(longest);
        }
    }
    None
}

/// Writes to more memory than a processor's caches hold, so that what comes next finds nothing in
/// them, however few keys there are.
fn cool(memory: &mut [u8]) {
    for byte in memory {
        *byte ^= 1;
    }
}

/// One checkpoint.
fn take<
    O: Operator,
    S: SnapshotStore,
    X: Transactions,
    P: Partitions<Record = O::Record>,
    R: Clock,
>(rt: &R, alloc: Global, core: &mut Core<O, S, X, P>, memory: &mut [u8]) -> Option<Cost> {
    let start = Instant::now(rt).ok()?;
    core.trigger().ok()?;
    let trigger = since(rt, start)?;
    core.inject(0).ok()?;
    core.persist(0).ok()?;
    let begun = since(rt, start)?;
    cool(memory);
    let before = Instant::now(rt).ok()?;
    core.take_barrier(1, 0).ok()?;
    let barrier = since(rt, before)?;
    let part = persist(rt, alloc, core)?;
    let last = Instant::now(rt).ok()?;
    core.complete().ok()?;
    let complete = since(rt, last)?;
    let whole = begun.saturating_add(since(rt, before)?);
    Some(Cost {
        barrier,
        whole,
        longest: trigger.max(barrier).max(part).max(complete),
    })
}

/// The rows of so many keys are counted; then two checkpoints are taken, and so many that are
/// measured.
fn work<
    O: Operator,
    S: SnapshotStore,
    X: Transactions,
    P: Partitions<Record = O::Record>,
    R: Clock,
>(rt: &R, alloc: Global, core: &mut Core<O, S, X, P>, keys: u64, checkpoints: u64) -> Option<Cost> {
    core.restart().ok()?;
    count(core, keys)?;
    let mut memory: Vec<u8> = vec![in alloc; 0; COOL].ok()?;
    take(rt, alloc, core, &mut memory)?;
    take(rt, alloc, core, &mut memory)?;
    let mut least = take(rt, alloc, core, &mut memory)?;
    for _ in 1..checkpoints {
        least = take(rt, alloc, core, &mut memory)?.least(least);
    }
    Some(least)
}

/// The same, on a core over these devices; and how long the operator's part is.
fn work_on<
    O: Operator,
    S: SnapshotStore + Drop,
    X: Transactions + Drop,
    P: Partitions<Record = O::Record> + Drop,
    R: Clock,
>(
    rt: &R,
    alloc: Global,
    core: Core<O, S, X, P>,
    keys: u64,
    checkpoints: u64,
) -> Option<(Cost, usize)> {
    let mut core = core;
    let cost = work(rt, alloc, &mut core, keys, checkpoints)?;
    let (_, mut store, _) = core.into_durable();
    let number = store.latest().ok()??;
    let part = store.get(number, 1).ok()?;
    Some((cost, part.len()))
}

/// The job's graph, and its operators.
fn expanded(alloc: Global) -> Option<(Graph, Vec<RowOp>)> {
    let job = JobSpec::read(alloc, JOB.as_bytes()).ok()?;
    let graph = Graph::expand(alloc, &job).ok()?;
    let operators: Vec<RowOp> = job.operators(alloc).ok()?;
    Some((graph, operators))
}

/// So many partitions, with one row of each key in the first.
fn filled(alloc: Global, partitions: u32, keys: u64) -> Option<MemoryLog<Row>> {
    let mut log = MemoryLog::new(alloc, partitions).ok()?;
    put_rows(alloc, &mut log, keys)?;
    Some(log)
}

/// A core over these devices, where they are the graph's.
fn opened<
    O: Operator,
    S: SnapshotStore + Drop,
    X: Transactions + Drop,
    P: Partitions<Record = O::Record> + Drop,
>(
    alloc: Global,
    graph: Graph,
    operators: Vec<O>,
    log: P,
    store: S,
    transactions: X,
) -> Option<Core<O, S, X, P>> {
    if operators.len() != graph.operators() as usize || log.count() != graph.sources() {
        return None;
    }
    if store.tasks() != graph.tasks() || transactions.subtasks() != graph.sinks() {
        return None;
    }
    Some(Core::open(alloc, graph, operators, log, store, transactions))
}

/// What so many checkpoints of so many keys cost.
fn measure<R: Clock>(rt: &R, alloc: Global, keys: u64, checkpoints: u64) -> Option<(Cost, usize)> {
    let (graph, operators) = expanded(alloc)?;
    if graph.tasks() == 0 {
        return None;
    }
    let log = filled(alloc, graph.sources(), keys)?;
    let store = MemoryStore::new(alloc, graph.tasks());
    let transactions = MemoryTransactions::new(alloc, graph.sinks());
    let core = opened(alloc, graph, operators, log, store, transactions)?;
    work_on(rt, alloc, core, keys, checkpoints)
}

/// The number that a word is, or 1.
fn number(word: Option<String>) -> u64 {
    word.and_then(|word| word.as_str().parse().ok())
        .unwrap_or(1)
}

fn main(rt: HostRuntime) -> io::Result<()> {
    let mut words = env::args(&rt)?;
    words.next();
    let (keys, checkpoints) = (number(words.next()), number(words.next()));
    let (cost, len) = measure(&rt, rt.alloc(), keys, checkpoints).ok_or(AllocError)?;
    println!(rt; "{keys} keys, {checkpoints} checkpoints: the part has {len} bytes")?;
    let Cost {
        barrier,
        whole,
        longest,
    } = cost;
    eprintln!(rt; "{barrier} {whole} {longest}")?;
    Ok(())
}
