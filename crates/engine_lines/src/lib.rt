//! What an engine that runs a line has committed: in rows, and without the checkpoint model.
//! Proved: the committed rows are what the operator, from its beginning, makes of the partition's
//! first `o` rows, for `add n` those rows with `n` added to each, saturating; `o` is 0 with no
//! committed checkpoint, and else, where the store still has the last committed one's part of task
//! 0, the offset that it spells.
//!
//! A line is a source, an operator and a sink, each sending to the next. Whatever an engine over
//! new devices went through, failures and restarts too, its committed rows are what the operator
//! makes of a beginning of the partition, each row once and in order.
//!
//! A line's plain runs come first: at every moment of one, what the sink has put out, what stands
//! in the channels and what the operator will make of it are what the operator makes of the records
//! that the source has read.
//!
//! Nothing here runs. Each public function has an empty body, and its contract is the law.
#![tactic(auto)]

ghost use Rattle.dataflow_model.specs.Graph.{Meaning, Job};
ghost use Rattle.engine_lines.specs.PlainLaws.{LinesApply, OneForEach, LinesCommitBeginnings, LoggedLinesCommitBeginnings};
ghost use Rattle.engine_model.specs.Language.{Language};
ghost use Rattle.engine_lines.specs.Laws.{LinesCommitWhatOperatorsMake, LinesCommitEachRow, AddingLinesCommitSums, LinesWithdrawNoRow, LineJobsExpandToLines};

/// At every moment of a plain run of a line the operator's meaning is applied along a beginning of
/// the partition.
pub fn lines_apply<R, K, S, O>()
    ensures { (job : Job R K S O) → LinesApply job }
{}

/// An operator that sends one record for each record is applied record by record.
pub fn one_for_each<R, K, S, O>()
    ensures { (meaning : Meaning R K S O) → OneForEach meaning }
{}

/// A sound engine that runs a line has committed what the operator makes of a beginning of the
/// partition.
pub fn lines_commit_beginnings<R, K, S, O, B>()
    ensures { (job : Job R K S O) (spell : R → B) → LinesCommitBeginnings job spell }
{}

/// Where the channels are logged, what it has committed begins what the operator makes of a
/// beginning of the partition.
pub fn logged_lines_commit_beginnings<R, K, S, O, B>()
    ensures { (job : Job R K S O) (spell : R → B) → LoggedLinesCommitBeginnings job spell }
{}

/// The committed rows are what the operator, from its beginning, makes of the partition's first so
/// many rows. Those are none where nothing was committed, and as many as the source's part of the
/// last committed checkpoint spells, where the store still has it.
pub fn lines_commit_what_operators_make<R, K, S, O>()
    ensures { (lang : Language R K S O) → LinesCommitWhatOperatorsMake lang }
{}

/// Where the operator sends one row for each, the committed rows are those of the first so many
/// rows.
pub fn lines_commit_each_row<R, K, S, O>()
    ensures { (lang : Language R K S O) → LinesCommitEachRow lang }
{}

/// Where the operator adds a number, they are the first so many rows with the number added to each,
/// saturating.
pub fn adding_lines_commit_sums()
    ensures { AddingLinesCommitSums }
{}

/// No step withdraws a committed row.
pub fn lines_withdraw_no_row<R, K, S, O>()
    ensures { (lang : Language R K S O) → LinesWithdrawNoRow lang }
{}

/// A job of a source, an operator and a sink, each of one subtask and joined by two edges, expands
/// to a line.
pub fn line_jobs_expand_to_lines()
    ensures { LineJobsExpandToLines }
{}
