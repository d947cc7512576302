//! What a step came to, as its answer line says it.

ghost use Rattle.std.specs.Prelude.{◌≡◌};
ghost use Rattle.absflow_run.specs.Calls.{is_for_some, asks_for_some, Works, MakesStep};
ghost use Rattle.dataflow_core.specs.Runs.{EndsStep};
ghost use Rattle.engine_steps.specs.Fitting.{StepFits};

use crate::opening::RowCore;
use alignment::Effect;
use commit_sink::Transactions;
use dataflow_core::{Core, Desk, Drained, Reply, Rules, Step};
use operators::{Operator, Row, RowOp};
use script_file::ScriptStep;
use snapshot_store::SnapshotStore;
use source_log::Partitions;
use std::fmt;

/// The answer to a step. Its text is what follows the step's number on the answer line.
#[derive(Clone, Copy, Debug, PartialEq, Eq)]
pub struct Answer {
    pub reply: Reply,
    /// Whether the step asked for some of the work on a part, so that its end is told.
    pub asked_for_some: bool,
}

fn word_of(effect: Effect) -> &'static str {
    match effect {
        Effect::Blocked => "blocked",
        Effect::Copy => "copy",
        Effect::Closed => "closed",
        Effect::CopyAndDone => "copy-done",
        Effect::Done => "done",
    }
}

fn ending_of(drained: Drained) -> &'static str {
    match drained {
        Drained::AtRest => "at-rest",
        Drained::TurnsSpent => "turns-spent",
    }
}

impl fmt::Display for Answer {
    fn fmt<W: fmt::Write>(&self, f: &mut fmt::Formatter<W>) -> fmt::Result {
        match self.reply {
            Reply::Accepted if self.asked_for_some => write!(f, "ok done"),
            Reply::Accepted => write!(f, "ok"),
            Reply::More => write!(f, "ok more"),
            Reply::Number(number) => write!(f, "ok {number}"),
            Reply::Barrier(effect) => {
                let word = word_of(effect);
                write!(f, "ok {word}")
            }
            Reply::Drained(drained) => {
                let word = ending_of(drained);
                write!(f, "ok {word}")
            }
            Reply::NoJob => write!(f, "no job"),
            Reply::Refused(fault) => write!(f, "{fault}"),
            Reply::Source(fault) => write!(f, "{fault}"),
        }
    }
}

/// What the core answers to a call.
fn reply_to<O: Operator, S: SnapshotStore, X: Transactions, P: Partitions<Record = O::Record>>(
    core: &mut Core<O, S, X, P>,
    desk: &mut Desk<O>,
    call: &Step<O::Record>,
) -> Reply
    requires { StepFits ⟦<O as Rules>⟧.RecordFits call.now }
    ensures { EndsStep ⟦<O as Rules>⟧.all ⟦<O as Rules>⟧.spelling call.now core.old desk.old
        core.new desk.new result }
{
    core.step(desk, call)
}

/// A task claims the record at the head of its input, works it, and hands in what was made of it.
fn work<O: Operator, S: SnapshotStore, X: Transactions, P: Partitions<Record = O::Record>>(
    core: &mut Core<O, S, X, P>,
    task: u32,
    input: u32,
) -> Reply
    ensures { Works ⟦<O as Rules>⟧.lang task input core.old core.new result }
{
    let job = match core.claim(task, input) {
        Ok(job) => job,
        Err(fault) => return Reply::Refused(fault),
    };
    match core.finish(job.run()) {
        Ok(()) => Reply::Accepted,
        Err(fault) => Reply::Refused(fault),
    }
}

/// Whether a call is for some of the work on a part.
fn is_for_some(call: &Step<Row>) -> bool
    ensures { result ≡ is_for_some call.now }
{
    matches!(call, Step::PersistSome(_, _))
}

/// Whether a step asks for some of the work on a part.
fn asks_for_some(step: &ScriptStep) -> bool
    ensures { result ≡ asks_for_some step.now }
{
    match step {
        ScriptStep::Call(call) => is_for_some(call.as_step()),
        _ => false,
    }
}

/// Does what a step asks for.
fn do_step(core: &mut RowCore, desk: &mut Desk<RowOp>, step: &ScriptStep) -> Reply
    ensures { MakesStep step.now core.old desk.old core.new desk.new result }
{
    match step {
        ScriptStep::Call(call) => reply_to(core, desk, call.as_step()),
        ScriptStep::Work(task, input) => work(core, *task, *input),
        ScriptStep::Fault(call, when) => {
            core.arm(*call, *when);
            Reply::Accepted
        }
    }
}

/// Makes a step: the call that it names, a task's work, or a device's call that is to fail.
pub fn make_step(core: &mut RowCore, desk: &mut Desk<RowOp>, step: &ScriptStep) -> Answer
    ensures made { MakesStep step.now core.old desk.old core.new desk.new result.reply }
    ensures asked { result.asked_for_some ≡ asks_for_some step.now }
{
    Answer {
        reply: do_step(core, desk, step),
        asked_for_some: asks_for_some(step),
    }
}
