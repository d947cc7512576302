//! Jobs as text, and what is read of them.

use job_graph::Graph;
use job_spec::JobSpec;
use operators::RowOp;
use std::alloc::Global;
use std::test::Fail;

/// A source, an operator that adds 10, and a sink: tasks 0, 1 and 2.
pub(crate) const LINE: &str =
    r#"{"vertices":[{"name":"s","kind":"source"},{"name":"plus","kind":"add","n":10},{"name":"out","kind":"sink"}],"edges":[{"from":"s","to":"plus"},{"from":"plus","to":"out"}]}"#;

/// Two source tasks, an operator that counts by key what both send, and a sink: tasks 0 to 3.
pub(crate) const COUNT: &str =
    r#"{"vertices":[{"name":"s","kind":"source","parallelism":2},{"name":"c","kind":"count"},{"name":"out","kind":"sink"}],"edges":[{"from":"s","to":"c","route":"hash"},{"from":"c","to":"out"}]}"#;

/// A loop that counts down, by way of a second operator: a source, the operator that counts, the
/// one that sends back, and a sink.
pub(crate) const LONG_LOOP: &str =
    r#"{"vertices":[{"name":"s","kind":"source"},{"name":"d","kind":"loop_down"},{"name":"r","kind":"add","n":0},{"name":"out","kind":"sink"}],"edges":[{"from":"s","to":"d"},{"from":"d","to":"r","port":1},{"from":"r","to":"d","back":true},{"from":"d","to":"out"}]}"#;

/// A source that two operators read, the first of which sends to the second by a back-edge, and a
/// sink.
pub(crate) const EARLY: &str =
    r#"{"vertices":[{"name":"s","kind":"source"},{"name":"a","kind":"add","n":0},{"name":"b","kind":"add","n":0},{"name":"out","kind":"sink"}],"edges":[{"from":"s","to":"a"},{"from":"s","to":"b"},{"from":"a","to":"b","back":true},{"from":"b","to":"out"}]}"#;

/// The graph of a job, and its operators.
pub(crate) fn expanded(alloc: Global, job: &str) -> Result<(Graph, Vec<RowOp>), Fail> {
    let job = JobSpec::read(alloc, job.as_bytes())?;
    let graph = Graph::expand(alloc, &job)?;
    let operators = job.operators(alloc)?;
    Ok((graph, operators))
}
