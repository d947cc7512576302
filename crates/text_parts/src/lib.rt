//! The text of many lines, which several threads spell and one thread writes. Proved: what is
//! written is the text of the lines in their order, each line once, as one thread would write it.
//!
//! The lines go by rounds of at most so many, so that memory is bounded however many lines there
//! are. Few lines are spelled with no other thread.
#![tactic(auto)]

mod fault;
mod lines;
mod parts;
mod writing;

pub use fault::TextFault;
pub use lines::Lines;
pub use writing::write_lines;
