//! The lines of a text, which several threads read. Proved: what is read is what one thread would
//! read: what the lines have, in their order, each line once, up to the first that is not read; and
//! how many those are. A text is taken from a reader up to so many bytes at a time, and is cut
//! behind its last whole line.
//!
//! A short text is read with no other thread.
#![tactic(auto)]

mod buffer;
mod part;
mod reader;
mod reading;

pub use buffer::{LineBuffer, fill};
pub use part::{Part, PartFault};
pub use reader::LineReader;
pub use reading::read_lines;
