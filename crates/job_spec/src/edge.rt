//! Edges between vertices.

/// To which subtasks of the receiver a record goes.
#[derive(Clone, Copy, Debug, PartialEq, Eq)]
pub enum EdgeRoute {
    /// To that of the sender's number.
    Forward,
    /// To that of the record's lane.
    Hash,
    /// To all of them.
    Broadcast,
}

/// An edge between two vertices, which are given by their numbers.
#[derive(Clone, Copy, Debug, PartialEq, Eq)]
pub struct EdgeSpec {
    pub from: usize,
    pub to: usize,
    pub port: u32,
    pub route: EdgeRoute,
    /// Whether the edge is a back-edge.
    pub back: bool,
}
