//! Reads a job file.

ghost use Rattle.job_spec.specs.Reading.{Gives, value_at, list, lists_at, job_at};
ghost use Rattle.std.specs.Prelude.{◌≡◌, ◌&&◌, nat_le, IfOk};
ghost use Rattle.serde_json.specs.Events.{items_len};
ghost use Rattle.serde_json.specs.View.{view, items_view};
ghost use Rattle.job_spec.specs.Job.{IsJob, vertices_view};

use crate::edge::EdgeSpec;
use crate::edges::edges;
use crate::fault::JobFault;
use crate::members::member;
use crate::vertex::VertexSpec;
use crate::vertices::vertices;
use indexmap::IndexMap;
use json_members::{has_only, json_of};
use serde_json::Value;
use std::alloc::Global;

const MAX_BYTES: usize = 16_777_216;

#[tactic(auto, unfolding(crate::specs::Reading::value_at))]
pub(crate) fn parse(alloc: Global, bytes: &[u8]) -> Result<Value, JobFault>
    ensures { Gives view result (value_at bytes.now) }
{
    if bytes.len() > MAX_BYTES {
        return Err(JobFault::TooMany);
    }
    json_of(alloc, bytes)?.ok_or(JobFault::BadJson)
}

fn is_length_in(items: &Vec<Value>, low: usize, high: usize) -> bool
    ensures { result ≡ (nat_le low (items_len (items_view items.now.items))
        && nat_le (items_len (items_view items.now.items)) high) }
{
    low <= items.len() && items.len() <= high
}

fn list(value: &Value, low: usize, high: usize) -> Result<&Vec<Value>, JobFault>
    ensures { Gives (λ v. items_view v.now.items) result (list low high (view value.now)) }
{
    let items = value.as_array().ok_or(JobFault::BadField)?;
    if is_length_in(items, low, high) {
        Ok(items)
    } else {
        Err(JobFault::BadField)
    }
}

#[tactic(auto, unfolding(crate::specs::Reading::lists_at))]
fn lists(value: &Value) -> Result<(&Vec<Value>, &Vec<Value>), JobFault>
    ensures { Gives (λ p. (items_view p.0.now.items, items_view p.1.now.items)) result
        (lists_at (view value.now)) }
{
    let vertices = list(member(value, "vertices")?, 1, 256)?;
    let edges = list(member(value, "edges")?, 0, 256)?;
    if has_only(value, &["vertices", "edges"]) {
        Ok((vertices, edges))
    } else {
        Err(JobFault::BadField)
    }
}

#[tactic(auto, unfolding(crate::specs::Reading::job_at))]
fn parts_at(
    alloc: Global,
    value: &Value,
) -> Result<(IndexMap<String, VertexSpec>, Vec<EdgeSpec>), JobFault>
    ensures { Gives (λ j. record { vertices = vertices_view j.0.entries; edges = j.1.items }) result
        (job_at (view value.now)) }
{
    let (vertex_items, edge_items) = lists(value)?;
    let vertices = vertices(alloc, vertex_items)?;
    let edges = edges(alloc, &vertices, edge_items)?;
    Ok((vertices, edges))
}

/// The vertices and edges that the value of a job file has.
pub(crate) fn job_at(
    alloc: Global,
    value: &Value,
) -> Result<(IndexMap<String, VertexSpec>, Vec<EdgeSpec>), JobFault>
    ensures exact { Gives (λ j. record { vertices = vertices_view j.0.entries; edges = j.1.items })
        result (job_at (view value.now)) }
    ensures job { IfOk result (λ j. IsJob (record {
      vertices = vertices_view j.0.entries;
      edges = j.1.items;
    })) }
{
    parts_at(alloc, value)
}
