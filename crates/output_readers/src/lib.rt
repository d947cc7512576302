//! Readers of a job's committed rows, who never wait. An [`OutputWriter`] is handed rows by sink
//! subtask, and publishes them; an [`OutputReader`] reads the list of a subtask that is published.
//! A writer has 16 readers, made with it and handed out one by one.
//!
//! Proved, as clauses of the public calls:
//! - what is published of a subtask begins all that was handed in for it (`published_begins`), and
//!   is all of it where `publish` answers a [`Told`], which names these lists; a refused `publish`
//!   shows nothing new, and a refused `append` hands nothing in;
//! - a list that is read begins with the reader's view, the longest list of that subtask that it
//!   has read or was told of, and is its view from then on; a `Told` that it learns joins the view;
//!   a refused read leaves the view;
//! - a reader reads only lists that its writer published, each beginning the next: the rule that
//!   both stand under keeps it, and `found` in the clauses is what the reader's last look found;
//! - the 17th reader is refused, and none before;
//! - `read` and `learn` take no handle by which a call may wait.
//!
//! Not proved: that a read, a publish or a new writer ever succeeds, since memory may be refused;
//! that a read is refused as `Closed` only once the writer has ended; that a reader which was told
//! nothing finds what is published by then; progress, fairness and time. `publish` and a writer's
//! drop wait for readers that copy a list at that moment, and no reader waits for them.
//!
//! Publishing costs what was handed in since the last time, and reading costs the list that is
//! read. The writer holds each row twice. Each `Told` that is kept has one of 48 places; where all
//! are taken `publish` is refused. A `Told` is learned by a reader of the same writer: where the
//! writer stands under a lock, a proof knows that of what was had under one guard.
#![tactic(auto)]

mod output_reader;
mod output_writer;

pub use output_reader::OutputReader;
pub use output_writer::OutputWriter;
pub use published_lists::{OutputFault, Told};
