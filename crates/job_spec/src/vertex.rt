//! Vertices.

use operators::{ParameterForm, RowOp};

/// What a vertex is, with its parameter.
#[derive(Debug, Drop, PartialEq)]
pub enum Kind {
    Source,
    Sink,
    Operator(RowOp),
}

impl Kind {
    ghost use Rattle.std.specs.Prelude.{◌≡◌};
    ghost use Rattle.job_spec.specs.Job.{kind_view, is_source, is_sink, is_keyed, ports, parameter_form};

    pub fn is_source(&self) -> bool
        ensures { result ≡ is_source (kind_view self.now) }
    {
        matches!(self, Kind::Source)
    }

    pub fn is_sink(&self) -> bool
        ensures { result ≡ is_sink (kind_view self.now) }
    {
        matches!(self, Kind::Sink)
    }

    /// Whether it keeps a state for each key.
    pub fn is_keyed(&self) -> bool
        ensures { result ≡ is_keyed (kind_view self.now) }
    {
        match self {
            Kind::Operator(operator) => operator.kind().is_keyed(),
            Kind::Source | Kind::Sink => false,
        }
    }

    /// How many ports it sends on.
    pub fn ports(&self) -> u32
        ensures { result ≡ ports (kind_view self.now) }
    {
        match self {
            Kind::Source => 1,
            Kind::Sink => 0,
            Kind::Operator(operator) => operator.kind().ports(),
        }
    }

    /// The form of its parameter.
    pub fn form(&self) -> ParameterForm
        ensures { result ≡ parameter_form (kind_view self.now) }
    {
        match self {
            Kind::Operator(operator) => operator.kind().form(),
            Kind::Source | Kind::Sink => ParameterForm::Nothing,
        }
    }
}

/// What a vertex is, and its number of subtasks.
#[derive(Debug, Drop, PartialEq)]
pub struct VertexSpec {
    pub kind: Kind,
    pub parallelism: u32,
}
