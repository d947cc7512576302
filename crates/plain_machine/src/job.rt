//! A job, what its tasks hold, and what moves it.

ghost use Rattle.std.specs.Prelude.{◌<◌};

use std::collections::BTreeMap;

/// One subtask of several.
#[derive(Drop)]
pub struct Share {
    pub parallelism: u64,
    pub subtask: u64,
    ghost some: { 0 < parallelism },
}

/// Which records of its port a channel takes.
#[derive(Drop)]
pub enum Route {
    Every,
    /// Those whose lane falls to the subtask.
    Lanes(Share),
}

/// A channel from one task to one task.
#[derive(Drop)]
pub struct Channel {
    pub sender: usize,
    pub receiver: usize,
    pub port: u32,
    pub route: Route,
    /// It is a back-edge.
    pub marked: bool,
}

/// A source with the number of its partition, an operator, or a sink.
#[derive(Drop)]
pub enum Task<O> {
    Source(usize),
    Operator(O),
    Sink,
}

/// Tasks, channels and partitions, each numbered from 0.
#[derive(Drop)]
pub struct Job<O, R> {
    pub tasks: Vec<Task<O>>,
    pub channels: Vec<Channel>,
    pub partitions: Vec<Vec<R>>,
}

/// What a task holds: a source its offset, an operator its states by key, a sink its output.
#[derive(Drop)]
pub struct TaskState<R, K: Ord, S> {
    pub offset: usize,
    pub states: BTreeMap<K, S>,
    pub output: Vec<R>,
}

/// What each task holds, and the records that stand in each channel.
#[derive(Drop)]
pub struct Configuration<R, K: Ord, S> {
    pub tasks: Vec<TaskState<R, K, S>>,
    pub channels: Vec<Vec<R>>,
}

/// A source reads its next record, or a task works off the first record of an input.
#[derive(Drop)]
pub enum Move {
    /// The source.
    Read(usize),
    /// The task, and the channel's number.
    Work(usize, usize),
}
