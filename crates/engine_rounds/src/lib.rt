//! Rounds over the tasks of a running engine: each task has its turn, a source reads one record and
//! another task works one of its lowest input that has one, until no task has a step to make or as
//! many steps were made as there are turns. It works without claims.
#![tactic(auto)]

mod ending;
mod rounding;
mod turns;

pub use ending::Drained;
pub use rounding::{idle_engines_rest, rounds};
