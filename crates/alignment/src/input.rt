//! The inputs of a gate, and how far it is.

/// How far a gate is.
#[derive(Clone, Copy, Debug, PartialEq, Eq)]
pub enum Phase {
    /// No barrier of the next checkpoint has come.
    AtRest,
    /// A barrier of this number has come, and the task hasn't copied.
    Aligning(u64),
    /// The task has copied, and the barrier of this number is missing on a marked input.
    Copied(u64),
}

/// What a barrier brings about.
#[derive(Clone, Copy, Debug, PartialEq, Eq)]
pub enum Effect {
    /// The input is blocked until the copy.
    Blocked,
    /// The task copies its state now, and logs what it takes from the marked inputs that are open.
    Copy,
    /// The input's log ends.
    Closed,
    /// The task copies its state now, and nothing is logged.
    CopyAndDone,
    /// The last log ends.
    Done,
}

/// An input of a task.
#[derive(Clone, Copy, Debug)]
pub struct Input {
    /// It is a back-edge.
    pub is_marked: bool,
    /// Its barrier of the gate's number has come.
    pub came: bool,
}
