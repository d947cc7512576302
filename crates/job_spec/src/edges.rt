//! The edges of a job file.

ghost use Rattle.std.specs.Prelude.{◌≡◌, [], codes, false};
ghost use Rattle.job_spec.specs.Job.{vertex_view, vertices_view};
ghost use Rattle.job_spec.specs.Reading.{Gives, checked, edge_at, edges_after, field, number, numbered, optional, or_fault, route};
ghost use Rattle.job_spec.specs.declared.fault.JobFault.TheVariants.{UnknownName};
ghost use Rattle.serde_json.specs.Find.{as_bool, get};
ghost use Rattle.serde_json.specs.View.{view, items_view};

use crate::edge::{EdgeRoute, EdgeSpec};
use crate::fault::JobFault;
use crate::members::number;
use crate::vertex::VertexSpec;
use indexmap::IndexMap;
use json_members::{has_only, text_at};
use serde_json::Value;
use std::alloc::Global;

fn route(value: &Value) -> Result<EdgeRoute, JobFault>
    ensures { Gives (λ r. r) result (route (view value.now)) }
{
    match value.as_str().ok_or(JobFault::BadField)? {
        "forward" => Ok(EdgeRoute::Forward),
        "hash" => Ok(EdgeRoute::Hash),
        "broadcast" => Ok(EdgeRoute::Broadcast),
        _ => Err(JobFault::BadField),
    }
}

fn route_of(value: &Value) -> Result<EdgeRoute, JobFault>
    ensures { Gives (λ r. r) result (optional route EdgeRoute.Forward
        (get (codes "route") (view value.now))) }
{
    match value.get("route") {
        Some(found) => route(found),
        None => Ok(EdgeRoute::Forward),
    }
}

fn port_of(value: &Value) -> Result<u32, JobFault>
    ensures { Gives (λ n. n) result (optional (number 0 4294967295) 0
        (get (codes "port") (view value.now))) }
{
    match value.get("port") {
        Some(found) => number(found, 0, u32::MAX),
        None => Ok(0),
    }
}

fn is_back(value: &Value) -> Result<bool, JobFault>
    ensures { Gives (λ b. b) result (optional (λ b. field (as_bool b)) false
        (get (codes "back") (view value.now))) }
{
    match value.get("back") {
        Some(found) => found.as_bool().ok_or(JobFault::BadField),
        None => Ok(false),
    }
}

fn vertex_named<'v>(
    vertices: &'v IndexMap<String, VertexSpec>,
    name: &str,
) -> Result<(usize, &'v String, &'v VertexSpec), JobFault>
    ensures { Gives (λ f. (f.0, vertex_view (f.1.now, f.2.now))) result
        (or_fault UnknownName (numbered name.now (vertices_view vertices.now.entries))) }
{
    vertices.get_full(name).ok_or(JobFault::UnknownName)
}

fn checked(
    from: (&String, &VertexSpec),
    to: (&String, &VertexSpec),
    edge: EdgeSpec,
) -> Result<EdgeSpec, JobFault>
    ensures { Gives (λ e. e) result (checked (vertex_view (from.entry.0.now, from.entry.1.now))
        (vertex_view (to.entry.0.now, to.entry.1.now)) edge) }
{
    let (sender, receiver) = (from.1, to.1);
    if receiver.kind.is_source() {
        return Err(JobFault::EdgeIntoSource);
    }
    if sender.kind.is_sink() {
        return Err(JobFault::EdgeFromSink);
    }
    if edge.port >= sender.kind.ports() {
        return Err(JobFault::BadPort);
    }
    if edge.route == EdgeRoute::Forward && sender.parallelism != receiver.parallelism {
        return Err(JobFault::ForwardNeedsEqual);
    }
    if receiver.kind.is_keyed() && receiver.parallelism > 1 && edge.route != EdgeRoute::Hash {
        return Err(JobFault::KeyedNeedsHash);
    }
    Ok(edge)
}

#[tactic(auto, unfolding(crate::specs::Reading::edge_at))]
fn edge(vertices: &IndexMap<String, VertexSpec>, value: &Value) -> Result<EdgeSpec, JobFault>
    ensures { Gives (λ e. e) result (edge_at (vertices_view vertices.now.entries)
        (view value.now)) }
{
    let from = text_at(value, "from").ok_or(JobFault::BadField)?;
    let to = text_at(value, "to").ok_or(JobFault::BadField)?;
    let route = route_of(value)?;
    let port = port_of(value)?;
    let back = is_back(value)?;
    if !has_only(value, &["from", "to", "route", "port", "back"]) {
        return Err(JobFault::BadField);
    }
    let (from, from_name, sender) = vertex_named(vertices, from)?;
    let (to, to_name, receiver) = vertex_named(vertices, to)?;
    checked(
        (from_name, sender),
        (to_name, receiver),
        EdgeSpec {
            from,
            to,
            port,
            route,
            back,
        },
    )
}

pub(crate) fn edges(
    alloc: Global,
    vertices: &IndexMap<String, VertexSpec>,
    items: &[Value],
) -> Result<Vec<EdgeSpec>, JobFault>
    ensures { Gives (λ v. v.items) result
        (edges_after (vertices_view vertices.now.entries) [] (items_view items.now)) }
{
    let mut found = Vec::new(alloc);
    for item in items {
        found.push(edge(vertices, item)?)?;
    }
    Ok(found)
}
