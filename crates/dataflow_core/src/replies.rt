//! How a call ended, told as one value.

ghost use Rattle.std.specs.Prelude.{◌≡◌};
ghost use Rattle.dataflow_core.specs.Replies.{accepted_as, numbered_as, restarted_as, persisted_as, copied_as, drained_as, appended_as};

use alignment::Effect;
use engine::{CoreFault, Persisted};
use engine_settling::Drained;
use source_log::SourceFault;

/// How a step ended. The number is that of a job at the desk, or of a checkpoint, or 0 for none.
#[derive(Clone, Copy, Debug, PartialEq, Eq)]
pub enum Reply {
    Accepted,
    /// Work on a task's part has gone on, and the part is not in the store yet.
    More,
    Number(u64),
    Barrier(Effect),
    Drained(Drained),
    /// No job of that number is at the desk.
    NoJob,
    Refused(CoreFault),
    Source(SourceFault),
}

pub(crate) fn accepted(outcome: Result<(), CoreFault>) -> Reply
    ensures { result ≡ accepted_as outcome }
{
    match outcome {
        Ok(()) => Reply::Accepted,
        Err(fault) => Reply::Refused(fault),
    }
}

pub(crate) fn numbered(outcome: Result<u64, CoreFault>) -> Reply
    ensures { result ≡ numbered_as outcome }
{
    match outcome {
        Ok(number) => Reply::Number(number),
        Err(fault) => Reply::Refused(fault),
    }
}

pub(crate) fn restarted(outcome: Result<Option<u64>, CoreFault>) -> Reply
    ensures { result ≡ restarted_as outcome }
{
    match outcome {
        Ok(Some(number)) => Reply::Number(number),
        Ok(None) => Reply::Number(0),
        Err(fault) => Reply::Refused(fault),
    }
}

pub(crate) fn persisted(outcome: Result<Persisted, CoreFault>) -> Reply
    ensures { result ≡ persisted_as outcome }
{
    match outcome {
        Ok(Persisted::More) => Reply::More,
        Ok(Persisted::Done) => Reply::Accepted,
        Err(fault) => Reply::Refused(fault),
    }
}

pub(crate) fn copied(outcome: Result<Effect, CoreFault>) -> Reply
    ensures { result ≡ copied_as outcome }
{
    match outcome {
        Ok(effect) => Reply::Barrier(effect),
        Err(fault) => Reply::Refused(fault),
    }
}

pub(crate) fn drained(outcome: Result<Drained, CoreFault>) -> Reply
    ensures { result ≡ drained_as outcome }
{
    match outcome {
        Ok(drained) => Reply::Drained(drained),
        Err(fault) => Reply::Refused(fault),
    }
}

pub(crate) fn appended(outcome: Result<(), SourceFault>) -> Reply
    ensures { result ≡ appended_as outcome }
{
    match outcome {
        Ok(()) => Reply::Accepted,
        Err(fault) => Reply::Source(fault),
    }
}
