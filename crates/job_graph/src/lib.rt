//! Jobs, and the graphs of tasks and channels that they stand for. Proved: the tasks, channels,
//! routes and order of the graph that a job expands to, or the first fault in the documented order.
#![tactic(auto)]

mod blocks;
mod expand;
mod graph;
mod links;
mod order;
mod role;
mod spelling;
mod tasks;

pub use graph::Graph;
pub use job_channels::{Channel, Route};
pub use job_spec::{EdgeRoute, EdgeSpec, JobFault, JobSpec, Kind, VertexSpec};
pub use role::Role;
