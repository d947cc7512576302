//! Lists of rows by sink subtask, which their writer publishes and readers copy: what the two
//! copies hold, and the editions that name what is published. Proved: an operation puts a row last
//! in its subtask's list, or names the lists; an edition names the lists with all that was handed
//! in, and of two of one history one follows the other; a look finds lists that follow what its
//! place knew, and copies the rows of the subtask that it asks for, and no others.
//!
//! `output_readers` stands on it: its writer and its readers, and what is not proved of them.
#![tactic(auto)]

mod edition;
mod fault;
mod lists;
mod naming;
mod told;

pub use edition::{Edition, Head};
pub use fault::OutputFault;
pub use lists::{Learns, Lists, Notes, OnlyGrows, Operation, Sees};
pub use naming::{ListWriter, named};
pub use told::{ListReader, Told, look};
