//! Jobs.

use crate::edge::EdgeSpec;
use crate::fault::JobFault;
use crate::reading::{job_at, parse};
use crate::subtasks::{operators_of, vertex_at};
use crate::vertex::VertexSpec;
use abs_codec::NoMemory;
use indexmap::IndexMap;
use operators::RowOp;
use serde_json::Value;
use std::alloc::Global;
use std::marker::Model;

/// A job: its vertices, which are numbered by their place in the file, and its edges.
#[derive(Drop)]
pub struct JobSpec {
    vertices: IndexMap<String, VertexSpec>,
    edges: Vec<EdgeSpec>,
}

impl Model for JobSpec {
    ghost use Rattle.job_spec.specs.Job.{Job};

    ghost Value = { Job };

    ghost use Rattle.job_spec.specs.Inside.{job_of_fields, KeepsJob};

    ghost view = { job_of_fields };

    ghost invariant = { KeepsJob };
}

impl JobSpec {
    ghost use Rattle.std.specs.Prelude.{◌≡◌, ◌<◌, IfOk, Some, length, map, slice_get};
    ghost use Rattle.job_spec.specs.Job.{IsJob, vertex_view, operator_view, operators_of};
    ghost use Rattle.job_spec.specs.Reading.{Gives, job_at, job_of};
    ghost use Rattle.serde_json.specs.View.{view};

    /// Reads a job file.
    #[tactic(auto, unfolding(crate::specs::Reading::job_of))]
    pub fn read(alloc: Global, bytes: &[u8]) -> Result<JobSpec, JobFault>
        // The job, or the first fault.
        ensures { Gives (λ job. job) result (job_of bytes.now) }
    {
        let value = parse(alloc, bytes)?;
        JobSpec::read_value(alloc, &value)
    }

    /// Reads the JSON value of a job file.
    pub fn read_value(alloc: Global, value: &Value) -> Result<JobSpec, JobFault>
        // The job, or the first fault.
        ensures { Gives (λ job. job) result (job_at (view value.now)) }
    {
        let (vertices, edges) = job_at(alloc, value)?;
        Ok(JobSpec { vertices, edges })
    }

    /// How many vertices there are.
    pub fn vertices(&self) -> usize
        ensures count { result ≡ length self.now.vertices }
        ensures job { IsJob self.now }
    {
        self.vertices.len()
    }

    /// The name of a vertex, and what it is.
    pub fn vertex(&self, number: usize) -> (&String, &VertexSpec)
        requires { number < length self.now.vertices }
        ensures { slice_get self.now.vertices number
            ≡ Some (vertex_view (result.0.now, result.1.now)) }
    {
        vertex_at(&self.vertices, number)
    }

    /// An operator for each operator task, in task order.
    pub fn operators(&self, alloc: Global) -> Result<Vec<RowOp>, NoMemory>
        ensures { IfOk result (λ v. map operator_view v.items ≡ operators_of self.now) }
    {
        operators_of(alloc, &self.vertices)
    }

    /// The edges, in file order.
    pub fn edges(&self) -> &[EdgeSpec]
        ensures value { result.now ≡ self.now.edges }
        ensures job { IsJob self.now }
    {
        &self.edges
    }
}
