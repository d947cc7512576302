//! Why a run ended with status 1.

ghost use Rattle.std.specs.Prelude.{◌≡◌, ◌≤◌};
ghost use Rattle.job_runner.specs.Telling.{tells_input, tells_run};
ghost use Rattle.job_runner.specs.declared.refusal.RunRefusal.TheVariants as whole;

use absflow_run::Refusal;
use job_input::InputFault;
use std::io;
use std::io::Write;
use thiserror::Error;
use thread_runner::RunFault;

/// Why a job was not run, or its run was given up. Its text is the line on standard error, without
/// the names of G9.
#[derive(Debug, Drop, Error)]
pub enum RunRefusal<'a> {
    /// The job or its inputs are at fault.
    #[error("{0}")]
    Input(InputFault<'a>),
    /// The run was refused.
    #[error("{0}")]
    Run(RunFault),
    /// What the other commands are refused for, too.
    #[error("{0}")]
    Other(Refusal),
}

impl<'a> From<InputFault<'a>> for RunRefusal<'a> {
    ghost from_gives = { λ fault e. e ≡ tells_input fault };

    fn from(fault: InputFault<'a>) -> Self {
        match fault {
            InputFault::Job(fault) => RunRefusal::Other(Refusal::Job(fault)),
            InputFault::Memory => RunRefusal::Other(Refusal::Memory),
            other => RunRefusal::Input(other),
        }
    }
}

impl From<RunFault> for RunRefusal<'_> {
    ghost from_gives = { λ fault e. e ≡ tells_run fault };

    fn from(fault: RunFault) -> Self {
        match fault {
            RunFault::Memory => RunRefusal::Other(Refusal::Memory),
            other => RunRefusal::Run(other),
        }
    }
}

impl From<Refusal> for RunRefusal<'_> {
    ghost from_gives = { λ refusal e. e ≡ whole.Other refusal };

    fn from(refusal: Refusal) -> Self {
        RunRefusal::Other(refusal)
    }
}

impl RunRefusal<'_> {
    /// Writes the line, with the names that a cycle has.
    fn complain<E: Write>(&self, err: &mut E) -> io::Result<()> {
        match self {
            RunRefusal::Other(refusal) => refusal.complain(err),
            refusal => writeln!(err, "{refusal}"),
        }
    }
}

/// The exit status of a run: 0, or 1 where it was refused or given up, which is then said. Output
/// that fails is a refusal too.
pub(crate) fn finish_run<W: Write, E: Write>(
    outcome: Result<(), RunRefusal<'_>>,
    out: &mut W,
    err: &mut E,
) -> u8
    ensures { result ≤ 1 }
{
    let flushed = out.flush();
    match outcome {
        Err(refusal) => {
            let _ = refusal.complain(err);
            1
        }
        Ok(()) if flushed.is_err() => {
            let _ = Refusal::Output.complain(err);
            1
        }
        Ok(()) => 0,
    }
}
