//! Script files: a job, the partitions that its sources read, and the steps to make on it. Proved:
//! from a script's bytes to its job, partitions and steps, or the first refusal in the documented
//! order.
//!
//! A script is a JSON object with exactly the members `job`, `partitions` and `steps`. It is read
//! whole before any step is made: what comes out is the script, or the first fault of its text in
//! one fixed order. The definitions that say which (`specs/`) read a JSON value as the code does,
//! one name for each part.
#![tactic(auto)]

mod calls;
mod contents;
mod fault;
mod faulty;
mod number;
mod outline;
mod rows;
mod script;
mod step;

pub use calls::FittingCall;
pub use contents::{Contents, contents_of};
pub use fault::{ItemFault, ScriptFault};
pub use outline::{Outline, json_value, outline_of};
pub use rows::{FittingRow, partitions, read_row};
pub use script::Script;
pub use step::{ScriptStep, parse_step, steps};
