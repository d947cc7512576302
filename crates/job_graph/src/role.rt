//! What a task is.

/// What a task is, without its number.
#[derive(Clone, Copy, Debug, PartialEq, Eq)]
pub(crate) enum TaskKind {
    Source,
    Operator,
    Sink,
}

/// What a task is, with its number among the tasks of its kind.
#[derive(Clone, Copy, Debug, PartialEq, Eq)]
pub enum Role {
    /// Reads the partition of this number.
    Source(u32),
    /// Applies the operator of this number.
    Operator(u32),
    /// Puts out as the sink subtask of this number.
    Sink(u32),
}

impl Role {
    ghost use Rattle.std.specs.Prelude.{◌≡◌};
    ghost use Rattle.job_graph.specs.Expanded.{is_source, is_operator, is_sink, is_subtask};

    pub fn is_source(self) -> bool
        ensures { result ≡ is_source self }
    {
        matches!(self, Role::Source(_))
    }

    pub fn is_operator(self) -> bool
        ensures { result ≡ is_operator self }
    {
        matches!(self, Role::Operator(_))
    }

    pub fn is_sink(self) -> bool
        ensures { result ≡ is_sink self }
    {
        matches!(self, Role::Sink(_))
    }

    /// Whether the task is this sink subtask.
    pub(crate) fn is_subtask(self, subtask: u32) -> bool
        ensures { result ≡ is_subtask subtask self }
    {
        matches!(self, Role::Sink(number) if number == subtask)
    }
}
