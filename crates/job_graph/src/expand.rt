//! From a job to its graph.

ghost use Rattle.std.specs.Prelude.{◌≡◌, ◌+◌, ◌<◌, ◌^◌, ◌≤◌, ℕ, List, All, IsPermutation, Some, slice_get, slice_index, true, false, map, length, sum, string_bytes, IfOk, IfErr, OnOk};
ghost use Rattle.std.specs.Bool.{MatchBool};
ghost use Rattle.std.specs.List.{flat_map, range_with_len};
ghost use Rattle.job_spec.specs.Job.{IsJob};
ghost use Rattle.job_graph.specs.Order.{at, IsAcyclic};
ghost use Rattle.job_graph.specs.Expanded.{IsNumbered, task_kind};
ghost use Rattle.job_channels.specs.Channel.{channel_view};
ghost use Rattle.job_graph.specs.Expansion.{IsSmall, IsVertexOrder, Refuses, channels_of, first_task, has_plain_input, is_fed, names_at, parallelisms_of, task_kinds_of};

use crate::blocks::{blocks, first_tasks};
use crate::graph::Graph;
use crate::order::{in_order, is_left};
use crate::role::Role;
use crate::spelling::spelling_of;
use crate::tasks::{parallelisms, roles, task_kinds};
use job_channels::{Channel, channels};
use job_spec::{EdgeSpec, JobFault, JobSpec};
use std::alloc::{AllocError, Global};

const MAX_TASKS: usize = 256;

const MAX_CHANNELS: usize = 4096;

fn has_plain_input(edges: &[EdgeSpec], vertex: usize) -> bool
    ensures { result ≡ has_plain_input edges.now vertex }
{
    edges.iter().any(|e| !e.back && e.to == vertex)
}

/// Whether the vertex is a source or has an unmarked inbound edge.
fn is_fed(job: &JobSpec, vertex: usize) -> bool
    requires { vertex < length job.now.vertices }
    ensures { result ≡ is_fed job.now vertex }
{
    let (_name, spec) = job.vertex(vertex);
    spec.kind.is_source() || has_plain_input(job.edges(), vertex)
}

pub(crate) fn are_fed(job: &JobSpec) -> bool
    ensures { MatchBool result ((vertex : ℕ) → is_fed job.now vertex ≡ true)
        ((vertex : ℕ) × (is_fed job.now vertex ≡ false)) }
{
    for vertex in 0..job.vertices() {
        if !is_fed(job, vertex) {
            return false;
        }
    }
    true
}

/// The names of the vertices that are left, in file order.
fn names_of(alloc: Global, job: &JobSpec, left: &[bool]) -> Result<Vec<String>, AllocError>
    ensures { IfOk result (λ v. map string_bytes v.items
        ≡ names_at (at left.now) 0 job.now.vertices) }
{
    let mut names = Vec::new(alloc);
    for i in 0..job.vertices() {
        let (name, _spec) = job.vertex(i);
        if is_left(left, i) {
            names.push(name.clone()?)?;
        }
    }
    Ok(names)
}

/// Whether a vertex is left.
fn any_left(left: &[bool]) -> bool
    ensures { MatchBool result ((v : ℕ) × (at left.now v ≡ true))
        ((v : ℕ) → at left.now v ≡ false) }
{
    for v in 0..left.len() {
        if left[v] {
            return true;
        }
    }
    false
}

/// The vertices, each behind those that have unmarked edges to it.
pub(crate) fn vertex_order(alloc: Global, job: &JobSpec) -> Result<Vec<usize>, JobFault>
    requires { IsSmall job.now }
    ensures order { IfOk result (λ v. IsVertexOrder job.now v.items) }
    ensures acyclic { OnOk result (IsAcyclic (length job.now.vertices) job.now.edges) }
    ensures within { IfOk result (λ v. All (λ u. u < length job.now.vertices) v.items) }
    // What stands at all vertices is what stands at these.
    ensures whole { IfOk result (λ v. (f : ℕ → List ℕ)
        → IsPermutation (flat_map f (range_with_len 0 (length job.now.vertices)))
        (flat_map f v.items)) }
    ensures err { IfErr result (Refuses job.now) }
{
    let (order, left) = in_order(alloc, job.vertices(), job.edges())?;
    if any_left(&left) {
        return Err(JobFault::UnmarkedCycle(names_of(alloc, job, &left)?));
    }
    Ok(order)
}

/// The tasks of a job, and how many subtasks each vertex has.
fn tasks_of(alloc: Global, job: &JobSpec) -> Result<(Vec<Role>, Vec<u32>), JobFault>
    ensures kinds { IfOk result (λ r. map task_kind r.0.items ≡ task_kinds_of job.now) }
    ensures numbered { IfOk result (λ r. IsNumbered r.0.items) }
    ensures parallelisms { IfOk result (λ r. r.1.items ≡ parallelisms_of job.now.vertices) }
    ensures few { OnOk result (length (task_kinds_of job.now) ≤ 256) }
    ensures sum { IfOk result (λ r. sum r.1.items < 2 ^ 31) }
    ensures err { IfErr result (Refuses job.now) }
{
    let kinds = task_kinds(alloc, job)?;
    if kinds.len() > MAX_TASKS {
        return Err(JobFault::TooMany);
    }
    let parallelisms = parallelisms(alloc, job)?;
    Ok((roles(alloc, &kinds)?, parallelisms))
}

/// The channels of a job, and the number of each vertex's subtask 0.
fn routes_of(
    alloc: Global,
    job: &JobSpec,
    parallelisms: &[u32],
) -> Result<(Vec<Channel>, Vec<u32>), JobFault>
    requires parallelisms { parallelisms.now ≡ parallelisms_of job.now.vertices }
    requires few { length (task_kinds_of job.now) ≤ 256 }
    requires sum { sum parallelisms.now < 2 ^ 31 }
    ensures channels { IfOk result (λ r. map channel_view r.0.items ≡ channels_of job.now) }
    ensures len { IfOk result (λ r. length r.1.items ≡ length parallelisms.now) }
    ensures firsts { IfOk result (λ r. (i : ℕ) → i < length parallelisms.now
        → slice_index r.1.items i ≡ first_task parallelisms.now i) }
    ensures small { OnOk result (IsSmall job.now) }
    ensures job { IsJob job.now }
    ensures err { IfErr result (Refuses job.now) }
{
    let edges = job.edges();
    let firsts = first_tasks(alloc, parallelisms)?;
    let channels = channels(alloc, parallelisms, &firsts, edges)?;
    if channels.len() > MAX_CHANNELS {
        return Err(JobFault::TooMany);
    }
    Ok((channels, firsts))
}

impl Graph {
    ghost use Rattle.std.specs.Prelude.{IfOk, IfErr};
    ghost use Rattle.job_graph.specs.Expansion.{Expands, Refuses};

    /// The tasks and channels of a job.
    pub fn expand(alloc: Global, job: &JobSpec) -> Result<Graph, JobFault>
        ensures ok { IfOk result (Expands job.now) }
        // The first refusal in the order of sizes, cycles and inputs.
        ensures err { IfErr result (Refuses job.now) }
    {
        let (roles, parallelisms) = tasks_of(alloc, job)?;
        let (channels, firsts) = routes_of(alloc, job, &parallelisms)?;
        let vertices = vertex_order(alloc, job)?;
        if !are_fed(job) {
            return Err(JobFault::NoPlainInput);
        }
        let order = blocks(alloc, &parallelisms, &firsts, &vertices)?;
        let Ok(spelling) = spelling_of(alloc, job) else {
            return Err(JobFault::Memory);
        };
        Ok(Graph::new(alloc, roles, channels, order, spelling)?)
    }
}
