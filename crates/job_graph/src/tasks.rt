//! The tasks of a job.

ghost use Rattle.std.specs.Prelude.{◌≡◌, ◌<◌, ◌^◌, ◌++◌, IfOk, OnOk, length, map, replicate, count_by};
ghost use Rattle.job_spec.specs.Job.{kind_view};
ghost use Rattle.job_graph.specs.Expanded.{IsNumbered, count_like, role_number, task_kind, is_source, is_operator, is_sink};
ghost use Rattle.job_graph.specs.Expansion.{kind_of, task_kinds_of, parallelisms_of};

use crate::role::{Role, TaskKind};
use job_spec::{JobSpec, Kind, VertexSpec};
use std::alloc::{AllocError, Global};

fn kind_of(kind: &Kind) -> TaskKind
    ensures { result ≡ kind_of (kind_view kind.now) }
{
    match kind {
        Kind::Source => TaskKind::Source,
        Kind::Sink => TaskKind::Sink,
        Kind::Operator(_) => TaskKind::Operator,
    }
}

fn push_subtasks(kinds: &mut Vec<TaskKind>, spec: &VertexSpec) -> Result<(), AllocError>
    ensures { OnOk result (kinds.new.items ≡ kinds.old.items
        ++ replicate spec.now.parallelism (kind_of (kind_view spec.now.kind))) }
{
    push_copies(kinds, kind_of(&spec.kind), spec.parallelism)
}

fn push_copies(kinds: &mut Vec<TaskKind>, kind: TaskKind, count: u32) -> Result<(), AllocError>
    ensures { OnOk result (kinds.new.items ≡ kinds.old.items ++ replicate count kind) }
{
    for _subtask in 0..count {
        kinds.push(kind)?;
    }
    Ok(())
}

/// The kinds of the tasks: the vertices in file order, each with its subtasks.
pub(crate) fn task_kinds(alloc: Global, job: &JobSpec) -> Result<Vec<TaskKind>, AllocError>
    ensures { IfOk result (λ v. v.items ≡ task_kinds_of job.now) }
{
    let mut kinds = Vec::new(alloc);
    for i in 0..job.vertices() {
        let (_name, spec) = job.vertex(i);
        push_subtasks(&mut kinds, spec)?;
    }
    Ok(kinds)
}

/// How many subtasks each vertex has.
pub(crate) fn parallelisms(alloc: Global, job: &JobSpec) -> Result<Vec<u32>, AllocError>
    ensures { IfOk result (λ v. v.items ≡ parallelisms_of job.now.vertices) }
{
    let mut parallelisms = Vec::new(alloc);
    for i in 0..job.vertices() {
        let (_name, spec) = job.vertex(i);
        parallelisms.push(spec.parallelism)?;
    }
    Ok(parallelisms)
}

fn sources(roles: &[Role]) -> usize
    ensures { result ≡ count_by is_source roles.now }
{
    roles.iter().filter(|role| role.is_source()).count()
}

fn operators(roles: &[Role]) -> usize
    ensures { result ≡ count_by is_operator roles.now }
{
    roles.iter().filter(|role| role.is_operator()).count()
}

fn sinks(roles: &[Role]) -> usize
    ensures { result ≡ count_by is_sink roles.now }
{
    roles.iter().filter(|role| role.is_sink()).count()
}

/// The role of a task of this kind behind these.
fn next_role(roles: &[Role], kind: TaskKind) -> Role
    requires { length roles.now < 2 ^ 32 }
    ensures kind { task_kind result ≡ kind }
    ensures number { role_number result ≡ count_like roles.now result }
{
    match kind {
        TaskKind::Source => Role::Source(sources(roles) as u32),
        TaskKind::Operator => Role::Operator(operators(roles) as u32),
        TaskKind::Sink => Role::Sink(sinks(roles) as u32),
    }
}

/// Tasks of these kinds, each numbered among those of its kind.
pub(crate) fn roles(alloc: Global, kinds: &[TaskKind]) -> Result<Vec<Role>, AllocError>
    requires { length kinds.now < 2 ^ 32 }
    ensures kinds { IfOk result (λ v. map task_kind v.items ≡ kinds.now) }
    ensures numbered { IfOk result (λ v. IsNumbered v.items) }
{
    let mut roles = Vec::new(alloc);
    for kind in kinds {
        let role = next_role(&roles, *kind);
        roles.push(role)?;
    }
    Ok(roles)
}
