//! Jobs as job files give them. Proved: from a job file's bytes to the job, or its first fault in
//! the documented order.
#![tactic(auto)]

mod edge;
mod edges;
mod fault;
mod job;
mod members;
mod reading;
mod subtasks;
mod vertex;
mod vertices;

pub use edge::{EdgeRoute, EdgeSpec};
pub use fault::JobFault;
pub use job::JobSpec;
pub use vertex::{Kind, VertexSpec};
