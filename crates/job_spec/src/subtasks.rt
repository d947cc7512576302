//! The operators of a job, one a subtask.

ghost use Rattle.std.specs.Prelude.{◌≡◌, ◌<◌, ◌++◌, IfOk, OnOk, Some, length, map, replicate, slice_get};
ghost use Rattle.std.specs.List.{flat_map};
ghost use Rattle.job_spec.specs.Job.{operator_view, vertex_view, vertices_view, operators_in};

use crate::vertex::{Kind, VertexSpec};
use abs_codec::NoMemory;
use indexmap::IndexMap;
use operators::{Operator, RowOp};
use std::alloc::Global;

fn push_copies(operators: &mut Vec<RowOp>, operator: &RowOp, count: u32) -> Result<(), NoMemory>
    ensures { OnOk result (map operator_view operators.new.items
        ≡ map operator_view operators.old.items ++ replicate count (operator_view operator.now)) }
{
    for _subtask in 0..count {
        operators.push(operator.copy()?)?;
    }
    Ok(())
}

fn push_operators(
    operators: &mut Vec<RowOp>,
    name: &String,
    spec: &VertexSpec,
) -> Result<(), NoMemory>
    ensures { OnOk result (map operator_view operators.new.items
        ≡ map operator_view operators.old.items
        ++ operators_in (vertex_view (name.now, spec.now))) }
{
    match &spec.kind {
        Kind::Operator(operator) => push_copies(operators, operator, spec.parallelism),
        Kind::Source | Kind::Sink => Ok(()),
    }
}

/// The name of a vertex, and what it is.
pub(crate) fn vertex_at(vertices: &IndexMap<String, VertexSpec>, i: usize) -> (&String, &VertexSpec)
    requires { i < length vertices.now.entries }
    ensures { slice_get (vertices_view vertices.now.entries) i
        ≡ Some (vertex_view (result.0.now, result.1.now)) }
{
    vertices.get_index(i).unwrap()
}

pub(crate) fn operators_of(
    alloc: Global,
    vertices: &IndexMap<String, VertexSpec>,
) -> Result<Vec<RowOp>, NoMemory>
    ensures { IfOk result (λ v. map operator_view v.items
        ≡ flat_map operators_in (vertices_view vertices.now.entries)) }
{
    let mut operators = Vec::new(alloc);
    for i in 0..vertices.len() {
        let (name, spec) = vertex_at(vertices, i);
        push_operators(&mut operators, name, spec)?;
    }
    Ok(operators)
}
