//! Judges a job file.

ghost use Rattle.std.specs.Prelude.{◌≤◌};

use crate::refusal::{Refusal, finish};
use crate::text::read_bytes;
use job_graph::Graph;
use job_spec::JobSpec;
use std::alloc::Global;
use std::io::{Read, Write};

fn judge<R: Read + Drop, W: Write>(alloc: Global, file: R, out: &mut W) -> Result<(), Refusal> {
    let bytes = read_bytes(alloc, file)?;
    let job = JobSpec::read(alloc, &bytes)?;
    let graph = Graph::expand(alloc, &job)?;
    let tasks = graph.tasks();
    let channels = graph.channels();
    let sinks = graph.sinks();
    writeln!(out, "ok: {tasks} tasks, {channels} channels, {sinks} sinks").map_err(
        |_| Refusal::Output,
    )
}

/// Says how many tasks, channels and sink subtasks a job has, and answers the exit status: 0, or 1
/// where it was refused.
pub fn check<R: Read + Drop, W: Write, E: Write>(
    alloc: Global,
    job: R,
    out: &mut W,
    err: &mut E,
) -> u8
    ensures { result ≤ 1 }
{
    finish(judge(alloc, job, out), out, err)
}
