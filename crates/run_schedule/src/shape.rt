//! The schedule of a graph.

use crate::schedule::{End, Node, Schedule};
use job_graph::{Graph, Role, Route};
use schedule_parts::{Inputs, Place, Round};
use std::alloc::{AllocError, Global};
use std::collections::VecDeque;

impl Schedule {
    /// The schedule of a job, in which nothing is marked yet.
    pub fn new(alloc: Global, graph: &Graph) -> Result<Schedule, AllocError> {
        let room = graph.tasks() as usize;
        let round = Round::new(
            VecDeque::with_capacity(alloc, room)?,
            VecDeque::with_capacity(alloc, room)?,
            graph.tasks(),
            graph.channels(),
            is_cyclic(graph),
            graph.sinks(),
        );
        let sources = sources_of(alloc, graph)?;
        Ok(Schedule::over(
            nodes_of(alloc, graph)?,
            order_of(alloc, graph)?,
            sources,
            VecDeque::with_capacity(alloc, room)?,
            round,
        ))
    }
}

/// Whether a channel is of a back-edge.
fn is_cyclic(graph: &Graph) -> bool {
    for number in 0..graph.channels() {
        if graph.is_marked(number) {
            return true;
        }
    }
    false
}

/// A node for each task.
fn nodes_of(alloc: Global, graph: &Graph) -> Result<Vec<Node>, AllocError> {
    let ranks = ranks_of(alloc, graph)?;
    let places = places_of(alloc, graph)?;
    let mut nodes = Vec::new(alloc);
    for task in 0..graph.tasks() {
        nodes.push(Node {
            rank: ranks.get(task as usize).copied().unwrap_or(0),
            inputs: Inputs::new(alloc, graph.inputs(task).len())?,
            ends: ends_of(alloc, graph, &places, task)?,
            spread: spread_of(graph, task),
            sent: 0,
            enough: 0,
            is_busy: false,
            is_sink: graph.role(task).is_some_and(|role| role.is_sink()),
            is_operator: matches!(graph.role(task), Some(Role::Operator(_))),
            twice_as_many: 0,
            worker: 0,
        })?;
    }
    Ok(nodes)
}

/// Each task's place in the order.
fn ranks_of(alloc: Global, graph: &Graph) -> Result<Vec<u32>, AllocError> {
    let mut ranks = Vec::new(alloc);
    ranks.resize(graph.tasks() as usize, 0)?;
    let mut rank: u32 = 0;
    for &task in graph.order() {
        if let Some(slot) = ranks.get_mut(task as usize) {
            *slot = rank;
        }
        rank = rank.saturating_add(1);
    }
    Ok(ranks)
}

/// Of each channel, which input of which task it is.
fn places_of(alloc: Global, graph: &Graph) -> Result<Vec<Place>, AllocError> {
    let mut places = Vec::new(alloc);
    places.resize(graph.channels() as usize, Place { task: 0, input: 0 })?;
    for task in 0..graph.tasks() {
        place_inputs(graph, task, &mut places);
    }
    Ok(places)
}

/// Says of each channel into a task which input it is.
fn place_inputs(graph: &Graph, task: u32, places: &mut [Place]) {
    let mut input: u32 = 0;
    for &number in graph.inputs(task) {
        if let Some(place) = places.get_mut(number as usize) {
            *place = Place { task, input };
        }
        input = input.saturating_add(1);
    }
}

/// The ends of the channels that a task sends on.
fn ends_of(
    alloc: Global,
    graph: &Graph,
    places: &[Place],
    task: u32,
) -> Result<Vec<End>, AllocError> {
    let mut ends = Vec::new(alloc);
    for &channel in graph.outputs(task) {
        if let Some(&place) = places.get(channel as usize) {
            ends.push(End { channel, place })?;
        }
    }
    Ok(ends)
}

/// So many records that a task sends are about one for each channel: the subtasks that an edge
/// spreads them over.
fn spread_of(graph: &Graph, task: u32) -> usize {
    let mut spread: usize = 0;
    for &number in graph.outputs(task) {
        let parts = graph
            .channel(number)
            .map_or(0, |channel| parts_of(channel.route));
        spread = spread.max(parts);
    }
    spread
}

/// Over how many channels a route spreads records.
fn parts_of(route: Route) -> usize {
    match route {
        Route::Every => 1,
        Route::Lanes { parallelism, .. } => parallelism as usize,
    }
}

/// The order.
fn order_of(alloc: Global, graph: &Graph) -> Result<Vec<u32>, AllocError> {
    let mut order = Vec::new(alloc);
    order.extend_from_slice(graph.order())?;
    Ok(order)
}

/// The source tasks.
fn sources_of(alloc: Global, graph: &Graph) -> Result<Vec<u32>, AllocError> {
    let mut sources = Vec::new(alloc);
    for task in 0..graph.tasks() {
        if let Some(Role::Source(_)) = graph.role(task) {
            sources.push(task)?;
        }
    }
    Ok(sources)
}
