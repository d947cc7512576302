//! What a claim carries: a task's work on the first records of an input, which is done outside the
//! engine, with no lock held, and handed in later. Proved: a result carries the work that it was
//! made of, and is what that work means, record by record; `offer` offers work exactly where a task
//! could do it now, and `offer_behind` a sink's on the very records behind the first of its input,
//! each of which it could do once those before it are taken; and a result is taken, as so many
//! steps of the task's own work would end, exactly where its work is what the task would do now
//! (`K7` where it is not).
//!
//! An operator's work carries the records that stand before the first barrier, as many as are asked
//! for, and of each of their keys the present state, once. A sink's work is one record. The states
//! are lent by the task, for reading, or copied where it lends none; those that were lent are
//! copied when the work is done. With n records of m keys, offering takes n copies of records and
//! of keys. The states take m copies, one sort of the n keys in place and m searches among the
//! task's, when they are offered or, where they are lent, when the work is run: the keys themselves
//! are kept, and beside them their states in the same order. Running copies no record. Taking
//! copies a key and its state where the key is new, and nothing else, in the time of m searches
//! among the task's keys.
#![tactic(auto)]

mod accepts;
mod carried;
mod due;
mod inputs;
mod leavings;
mod left;
mod offers;
mod parts;
mod rooms;
mod rows;
mod states;

pub use accepts::accept;
pub use carried::{Work, Worked};
pub use due::{channel_of, operator_of};
pub use inputs::input_of;
pub use leavings::Leavings;
pub use offers::{offer, offer_behind};
pub use parts::{Given, Lanes, Load, Made, Operand, Outcomes, Sheet, Solved};
pub use rooms::Room;
pub use rows::accept_rows;
pub use states::States;
