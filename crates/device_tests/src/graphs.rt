//! Graphs as a job expands to them. Where a record goes stands in tests/scripts.

use job_graph::Graph;
use job_spec::JobSpec;
use std::alloc::Global;
use std::test::Fail;

/// A source, an operator that adds 10, and a sink: tasks 0, 1 and 2.
const LINE: &str =
    r#"{"vertices":[{"name":"s","kind":"source"},{"name":"plus","kind":"add","n":10},{"name":"out","kind":"sink"}],"edges":[{"from":"s","to":"plus"},{"from":"plus","to":"out"}]}"#;

/// A task behind those that it waits for: the first in the file's order whose unmarked senders are
/// there.
const BACKWARDS: &str =
    r#"{"vertices":[{"name":"out","kind":"sink"},{"name":"b","kind":"add","n":0,"parallelism":2},{"name":"a","kind":"add","n":0},{"name":"s","kind":"source"}],"edges":[{"from":"b","to":"out","route":"hash"},{"from":"a","to":"b","route":"broadcast"},{"from":"s","to":"a"},{"from":"b","to":"a","route":"hash","back":true}]}"#;

fn graph(alloc: Global, job: &str) -> Result<Graph, Fail> {
    let spec = JobSpec::read(alloc, job.as_bytes())?;
    Ok(Graph::expand(alloc, &spec)?)
}

/// The line's vertices, each its name, its kind, its number to add where it has one, and its
/// parallelism, and then its two edges.
const LINE_SPELLED: [u8; 79] = [
    0, 0, 0, 3, 0, 0, 0, 1, 0x73, 0, 0, 0, 0, 1, 0, 0, 0, 4, 0x70, 0x6c, 0x75, 0x73, 2, 0, 0, 0, 0,
    0, 0, 0, 0x0a, 0, 0, 0, 1, 0, 0, 0, 3, 0x6f, 0x75, 0x74, 1, 0, 0, 0, 1, 0, 0, 0, 2, 0, 0, 0, 0,
    0, 0, 0, 1, 0, 0, 0, 0, 0, 0, 0, 0, 0, 1, 0, 0, 0, 2, 0, 0, 0, 0, 0, 0,
];

#[test]
fn a_graph_is_spelled(rt: HostRuntime) -> Result<(), Fail> {
    let graph = graph(rt.alloc(), LINE)?;
    assert_eq!(&rt; graph.spelling(), LINE_SPELLED.as_slice());
    Ok(())
}

#[test]
fn tasks_stand_behind_their_senders(rt: HostRuntime) -> Result<(), Fail> {
    let graph = graph(rt.alloc(), BACKWARDS)?;
    assert_eq!(&rt; graph.order(), [4, 3, 1, 2, 0].as_slice());
    Ok(())
}
