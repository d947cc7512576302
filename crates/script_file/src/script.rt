//! Whole scripts.

ghost use Rattle.std.specs.Prelude.{◌≡◌, Ok};
ghost use Rattle.job_spec.specs.Reading.{job_at};
ghost use Rattle.serde_json.specs.View.{view};
ghost use Rattle.script_file.specs.Faults.{Gives};
ghost use Rattle.script_file.specs.Outline.{outline_view};
ghost use Rattle.script_file.specs.Script.{of_job, head_at, head_of, Reads};

use crate::contents::{Contents, contents_of};
use crate::fault::ScriptFault;
use crate::outline::{Outline, json_value, outline_of};
use job_graph::Graph;
use job_spec::JobSpec;
use serde_json::Value;
use std::alloc::Global;

/// A script whose job has a graph, with a partition for each source task.
#[derive(Drop)]
pub struct Script {
    pub job: JobSpec,
    pub graph: Graph,
    pub contents: Contents,
}

fn job_of(alloc: Global, value: &Value) -> Result<JobSpec, ScriptFault>
    ensures { Gives (λ job. job) result (of_job (job_at (view value.now))) }
{
    Ok(JobSpec::read_value(alloc, value)?)
}

#[tactic(auto, unfolding(crate::specs::Script::head_at))]
fn head(alloc: Global, value: &Value) -> Result<(Outline<'_>, JobSpec), ScriptFault>
    ensures { Gives (λ h. (outline_view h.0, h.1)) result (head_at (view value.now)) }
{
    let outline = outline_of(value)?;
    let job = job_of(alloc, outline.job)?;
    Ok((outline, job))
}

fn expanded(alloc: Global, outline: &Outline<'_>, job: JobSpec) -> Result<Script, ScriptFault>
    ensures { Reads (Ok (outline_view outline.now, job)) result }
{
    let graph = Graph::expand(alloc, &job)?;
    let contents = contents_of(alloc, outline, graph.sources())?;
    Ok(Script {
        job,
        graph,
        contents,
    })
}

fn script_of(alloc: Global, value: &Value) -> Result<Script, ScriptFault>
    ensures { Reads (head_at (view value.now)) result }
{
    let (outline, job) = head(alloc, value)?;
    expanded(alloc, &outline, job)
}

impl Script {
    ghost use Rattle.script_file.specs.Script.{head_of, Reads};

    /// Reads a script, or answers its first fault: of the text, of the members, of the job and its
    /// graph, of the number of partitions, of the rows, of the steps.
    pub fn read(alloc: Global, bytes: &[u8]) -> Result<Script, ScriptFault>
        ensures { Reads (head_of bytes.now) result }
    {
        let value = json_value(alloc, bytes)?;
        script_of(alloc, &value)
    }
}
