//! What a core has committed, shown to the readers of an output writer. Proved of `show_committed`:
//! of each sink subtask, what was handed in begins what it has committed, and where the call
//! answers a `Told`, readers can see all of it; a refused call shows nothing new.
#![tactic(auto)]

mod publishing;

pub use publishing::show_committed;
