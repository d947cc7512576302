//! A job with its inputs.

ghost use Rattle.std.specs.Prelude.{◌≡◌, ◌≤◌, ◌++◌, [], ◌∷◌, List, count_by, length, map, IfOk, IfSome, OnOk, IsOkAnd};
ghost use Rattle.std.specs.List.{AllZip};
ghost use Rattle.std.specs.Thread.{IsSync};
ghost use Rattle.std.proofs.Props.{props};
ghost use Rattle.job_graph.specs.Expanded.{is_source};
ghost use Rattle.job_graph.specs.Expansion.{Expands};
ghost use Rattle.job_input.specs.Judged.{GivesRows, IsRead, IsJudged};
ghost use Rattle.operators.specs.declared.row.Row.{Row};

use crate::fault::{InputFault, fault_at};
use crate::input::{Input, line_fault};
use crate::rounds::read_rows_by;
use abs_codec::NoMemory;
use job_graph::Graph;
use job_spec::JobSpec;
use operators::Row;
use source_log::{MemoryLog, Partitions};
use std::alloc::Global;
use std::io::Read;
use std::thread::{Threads, map_vec};

/// A job whose graph has an input for each source task, and the log of their rows.
#[derive(Drop)]
pub struct JobInput {
    pub job: JobSpec,
    pub graph: Graph,
    pub log: MemoryLog<Row>,
}

/// The job of this text and its graph.
fn expanded<'a>(alloc: Global, bytes: &[u8]) -> Result<(JobSpec, Graph), InputFault<'a>>
    ensures { IfOk result (λ r. IsRead bytes.now r.0 r.1) }
{
    let job = JobSpec::read(alloc, bytes)?;
    let graph = Graph::expand(alloc, &job)?;
    Ok((job, graph))
}

/// An input with its number, from 0.
type Numbered<'a, F> = (u32, Input<'a, F>);

/// The rows of an input, which are the one partition of a log.
#[derive(Drop)]
struct InputRows {
    log: MemoryLog<Row>,
    ghost one: { length log.rows ≡ 1 } by { Prim.hlevel props },
}

/// The inputs with their numbers.
fn numbered<'a, F: Drop>(
    alloc: Global,
    inputs: Vec<Input<'a, F>>,
) -> Result<Vec<Numbered<'a, F>>, NoMemory>
    ensures { IfOk result (λ pairs. map (λ pair. pair.1) pairs.items ≡ inputs.entry.items) }
{
    let mut pairs = Vec::with_capacity(alloc, inputs.len())?;
    let mut number: u32 = 0;
    for input in inputs {
        pairs.push_reserved((number, input));
        number = number.wrapping_add(1);
    }
    Ok(pairs)
}

/// Reads an input's rows, by so many threads.
#[tactic(auto, using(crate::proofs::Putting::as_many))]
fn read_input<'a, R: Threads + Sync, F: Read + Drop + Send>(
    rt: &R,
    alloc: Global,
    pair: Numbered<'a, F>,
    threads: usize,
) -> Result<InputRows, InputFault<'a>>
    ensures { IfOk result (λ one. AllZip (GivesRows F.remaining)
        (pair.entry.1 ∷ []) one.log.rows) }
{
    let (number, input) = pair;
    let name = input.name;
    let mut file = match input.into_buffered(alloc) {
        Ok(file) => file,
        Err(error) => return Err(fault_at(line_fault(&error), name, number, 0)),
    };
    let mut log = MemoryLog::new(alloc, 1)?;
    match read_rows_by(rt, alloc, &mut log, 0, &mut file, threads) {
        Ok(()) => Ok(InputRows { log }),
        Err((at, fault)) => Err(fault_at(fault, name, number, at)),
    }
}

/// Reads the rows of each of these inputs side by side, each by so many threads.
fn read_group<'a, R: Threads + Sync, F: Read + Drop + Send>(
    rt: &R,
    inputs: Vec<Numbered<'a, F>>,
    alloc: Global,
    threads: usize,
) -> Result<Vec<Result<InputRows, InputFault<'a>>>, InputFault<'a>>
    ensures { IfOk result (λ group. AllZip (λ pair r. IfOk r (λ one.
        AllZip (GivesRows F.remaining) (pair.1 ∷ []) one.log.rows))
        inputs.entry.items group.items) }
{
    let group = map_vec(rt, inputs, &|pair| read_input(rt, alloc, pair, threads))?;
    Ok(group)
}

/// Puts the partitions of these inputs behind those of a log, in their order, up to the first
/// fault.
fn append_group<'a>(
    log: &mut MemoryLog<Row>,
    group: Vec<Result<InputRows, InputFault<'a>>>,
) -> Result<(), InputFault<'a>>
    ensures { OnOk result ((more : List (List Row)) × (log.new.rows ≡ log.old.rows ++ more)
        × AllZip (λ r rows. IsOkAnd r (λ one. one.log.rows ≡ rows ∷ []))
        group.entry.items more) }
{
    for input in group {
        log.append_partitions(input?.log)?;
    }
    Ok(())
}

/// A log of the rows of these inputs, of which there have to be so many. So many threads read:
/// as many inputs at a time, side by side, and if there are fewer, several read each.
fn read_inputs<'a, R: Threads + Sync, F: Read + Drop + Send>(
    rt: &R,
    alloc: Global,
    want: u32,
    inputs: Vec<Input<'a, F>>,
    threads: usize,
) -> Result<MemoryLog<Row>, InputFault<'a>>
    ensures want { IfOk result (λ log.
        length (⟦<MemoryLog<Row> as Partitions>⟧.records log) ≡ want) }
    ensures rows { IfOk result (λ log. AllZip (GivesRows F.remaining) inputs.entry.items
        (⟦<MemoryLog<Row> as Partitions>⟧.records log)) }
{
    let got = inputs.len();
    if got != want as usize {
        return Err(InputFault::Inputs { want, got });
    }
    let mut log = MemoryLog::new(alloc, 0)?;
    let mut group = numbered(alloc, inputs)?;
    while !group.is_empty() {
        let size = threads.clamp(1, group.len());
        let rest = group.split_off(size)?;
        append_group(&mut log, read_group(rt, group, alloc, threads / size)?)?;
        group = rest;
    }
    Ok(log)
}

/// Reads a job and the rows of its inputs, one for each source task in task order, or answers the
/// first fault: of the job, of the number of inputs, of the inputs in order. As many inputs as
/// there are workers are read side by side, this thread included. Where there are fewer, each is
/// read by its share of so many threads, and by four where that is two or three.
pub fn judge<'a, R: Threads + Sync, J: Read + Drop, F: Read + Drop + Send>(
    rt: &R,
    alloc: Global,
    job: Input<'a, J>,
    inputs: Vec<Input<'a, F>>,
    workers: u64,
) -> Result<JobInput, InputFault<'a>>
    ensures judged { IfOk result (λ j. IsJudged j.job j.graph
        (⟦<MemoryLog<Row> as Partitions>⟧.records j.log)) }
    // The job's file was opened, and where its bytes are known they say this job.
    ensures job { IfOk result (λ j. IsOkAnd job.entry.file (λ file. IfSome (J.remaining file)
        (λ bytes. IsRead bytes j.job j.graph))) }
    // Each input's partition, at its place, has the rows of the lines of its file.
    ensures rows { IfOk result (λ j. AllZip (GivesRows F.remaining) inputs.entry.items
        (⟦<MemoryLog<Row> as Partitions>⟧.records j.log)) }
{
    let bytes = job.into_bytes(alloc)?;
    let (job, graph) = expanded(alloc, &bytes)?;
    let log = read_inputs(rt, alloc, graph.sources(), inputs, workers as usize)?;
    Ok(JobInput { job, graph, log })
}
