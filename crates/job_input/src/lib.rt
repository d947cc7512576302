//! A job and the files of rows that it runs over, read and judged before the run: the job's file,
//! the number of inputs, then the inputs in order, and the first fault ends it. Proved: a line is
//! the bytes up to the first end of one, and a text's rows are those of its lines, each the row of
//! the line's JSON (where the reader's bytes are known, as those in memory are); they are put last
//! in the input's own partition, and no other partition changes; there is a partition for each
//! source task of the graph that the job expands to, with the rows of the input at its place; the
//! job is the one that its file's bytes say, and each file was opened.
//!
//! Inputs are read line by line through one buffer that is used again, or by several threads in
//! rounds of one mebibyte, so that memory is bounded whatever the lines are. The rows of a round
//! are put while the lines of the next one are read. What is proved of both is the same.
#![tactic(auto)]

mod fault;
mod input;
mod job;
mod line;
mod number;
mod plain;
mod rounds;
mod rows;

pub use fault::{InputFault, LineFault};
pub use input::Input;
pub use job::{JobInput, judge};
pub use line::{MAX_LINE_BYTES, next_line};
pub use rounds::read_rows_by;
pub use rows::{put_line, read_rows, row_of_line};
