//! What a task sends, by the channels that it goes into. Proved: each record goes into each channel
//! that takes it, in the order in which it was sent, and a barrier into each output of the task.
#![tactic(auto)]

mod by_run;
mod fans;
mod puts;
mod sent;
mod turns;

pub use by_run::{run_of, run_target};
pub use fans::{Fanned, Fans};
pub use puts::{barriers, deliver, deliver_row, fixed_target, open_port, sole_target};
pub use sent::{Sent, with_first_port};
pub use turns::turn;
