//! How a job is run.

ghost use Rattle.std.specs.Prelude.{◌≤◌};

/// What the command line says of a run.
#[derive(Clone, Copy, Debug)]
pub struct Options {
    /// How many threads work.
    pub workers: u64,
    /// The records worked between two checkpoints, 0 for one checkpoint at the end.
    pub every: u64,
    /// The turns after which the run is given up.
    pub turns: u64,
    /// The records that an operator takes at a time at first.
    pub batch: u32,
    ghost in_range: { (1 ≤ batch) × (batch ≤ 1024) },
}
