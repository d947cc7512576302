//! What the program does with a script, and with a job. A script is run on a core over new devices
//! in memory: its steps are made, and the committed rows are printed. Everything is generic over
//! the reader and the writers, so that tests run it in memory. Proved: the core is opened as the
//! script asks, over a log whose partitions are the script's, row by row; a script's step is the
//! core's call of its name, and ends as that call does; a sink's committed records are printed in
//! order, each as the row that it spells; what is given up for is the fault that was met, and want
//! of memory as such.
#![tactic(auto)]

mod answer;
mod checking;
mod committed;
mod opening;
mod record_text;
mod refusal;
mod row_text;
mod rows_log;
mod running;
mod sink_lines;
mod text;

pub use answer::{Answer, make_step};
pub use checking::check;
pub use committed::{CommittedRows, print_committed, print_head};
pub use opening::RowCore;
pub use record_text::append_record;
pub use refusal::{Refusal, finish};
pub use row_text::append_row;
pub use running::script;
pub use sink_lines::SinkLines;
