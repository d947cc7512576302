//! Jobs as bytes.

ghost use Rattle.std.specs.Prelude.{◌≡◌, ◌<◌, ◌++◌, All, OnOk, IfOk, length, string_bytes};
ghost use Rattle.std.specs.List.{flat_map};
ghost use Rattle.abs_codec.specs.Spelling.{list_spelling};
ghost use Rattle.job_spec.specs.Job.{kind_view, operator_view, vertex_view};
ghost use Rattle.job_graph.specs.Spelling.{kind_spelling, vertex_spelling, edge_spelling, route_number, back_number, spelling_of};

use abs_codec::{Codec, CodecFault, Text};
use job_spec::{EdgeRoute, EdgeSpec, JobSpec, Kind, VertexSpec};
use operators::RowOp;
use std::alloc::Global;

fn write_operator(operator: &RowOp, out: &mut Vec<u8>) -> Result<(), CodecFault>
    ensures { OnOk result (out.new.items ≡ out.old.items
        ++ kind_spelling (operator_view operator.now)) }
{
    out.push(operator.kind().number())?;
    operator.write_parameter(out)
}

fn write_kind(kind: &Kind, out: &mut Vec<u8>) -> Result<(), CodecFault>
    ensures { OnOk result (out.new.items ≡ out.old.items ++ kind_spelling (kind_view kind.now)) }
{
    match kind {
        Kind::Source => Ok(out.push(0)?),
        Kind::Sink => Ok(out.push(1)?),
        Kind::Operator(operator) => write_operator(operator, out),
    }
}

fn write_vertex(
    alloc: Global,
    name: &String,
    spec: &VertexSpec,
    out: &mut Vec<u8>,
) -> Result<(), CodecFault>
    ensures { OnOk result (out.new.items ≡ out.old.items
        ++ vertex_spelling (vertex_view (name.now, spec.now))) }
{
    Text::from_str(alloc, name.as_str())?.write(out)?;
    write_kind(&spec.kind, out)?;
    spec.parallelism.write(out)
}

fn write_vertices(alloc: Global, job: &JobSpec, out: &mut Vec<u8>) -> Result<(), CodecFault>
    ensures { OnOk result (out.new.items ≡ out.old.items
        ++ flat_map vertex_spelling job.now.vertices) }
{
    for i in 0..job.vertices() {
        let (name, spec) = job.vertex(i);
        write_vertex(alloc, name, spec, out)?;
    }
    Ok(())
}

fn route_number(route: EdgeRoute) -> u8
    ensures { result ≡ route_number route }
{
    match route {
        EdgeRoute::Forward => 0,
        EdgeRoute::Hash => 1,
        EdgeRoute::Broadcast => 2,
    }
}

fn back_number(back: bool) -> u8
    ensures { result ≡ back_number back }
{
    if back { 1 } else { 0 }
}

fn write_edge(edge: &EdgeSpec, out: &mut Vec<u8>) -> Result<(), CodecFault>
    requires from { edge.now.from < 256 }
    requires to { edge.now.to < 256 }
    ensures { OnOk result (out.new.items ≡ out.old.items ++ edge_spelling edge.now) }
{
    (edge.from as u32).write(out)?;
    (edge.to as u32).write(out)?;
    edge.port.write(out)?;
    out.push(route_number(edge.route))?;
    out.push(back_number(edge.back))?;
    Ok(())
}

fn write_edges(edges: &[EdgeSpec], out: &mut Vec<u8>) -> Result<(), CodecFault>
    requires { All (λ e. (e.from < 256) × (e.to < 256)) edges.now }
    ensures { OnOk result (out.new.items ≡ out.old.items ++ flat_map edge_spelling edges.now) }
{
    for edge in edges {
        write_edge(edge, out)?;
    }
    Ok(())
}

/// The vertices and then the edges, each list behind its count.
pub(crate) fn spelling_of(alloc: Global, job: &JobSpec) -> Result<Vec<u8>, CodecFault>
    ensures { IfOk result (λ v. v.items ≡ spelling_of job.now) }
{
    let mut out = Vec::new(alloc);
    (job.vertices() as u32).write(&mut out)?;
    write_vertices(alloc, job, &mut out)?;
    let edges = job.edges();
    (edges.len() as u32).write(&mut out)?;
    write_edges(edges, &mut out)?;
    Ok(out)
}
