//! Why the program ended with status 1.

ghost use Rattle.std.specs.Prelude.{◌≡◌, ◌≢◌, ◌≤◌};
ghost use Rattle.absflow_run.specs.Telling.{TellsJob, TellsScript};
ghost use Rattle.absflow_run.specs.declared.refusal.Refusal.TheVariants as Refusal;
ghost use Rattle.abs_codec.specs.declared.fault.CodecFault.TheVariants as CodecFault;
ghost use Rattle.engine_model.specs.declared.fault.CoreFault.TheVariants as CoreFault;
ghost use Rattle.source_log.specs.declared.partitions.SourceFault.TheVariants as SourceFault;

use abs_codec::{CodecFault, NoMemory};
use dataflow_core::CoreFault;
use job_spec::JobFault;
use script_file::ScriptFault;
use source_log::SourceFault;
use std::alloc::{AllocError, AllocFailed};
use std::io;
use std::io::Write;
use text_parts::TextFault;
use thiserror::Error;

/// Why a script or a job was refused or given up. Its text is the line on standard error, without
/// the names of G9.
#[derive(Debug, Drop, Error)]
pub enum Refusal {
    /// The file can't be read on.
    #[error("cannot read the input")]
    Unreadable,
    /// The script's text, a row or a step of it.
    #[error("{0}")]
    Script(ScriptFault),
    #[error("{0}")]
    Job(JobFault),
    /// The core was not started, or a committed row was not given.
    #[error("{0}")]
    Core(CoreFault),
    /// A committed record that is no row.
    #[error("{0}")]
    Record(CodecFault),
    /// A partition that takes no more rows.
    #[error("{0}")]
    Source(SourceFault),
    #[error("no memory")]
    Memory,
    #[error("cannot write the output")]
    Output,
}

impl From<JobFault> for Refusal {
    ghost from_gives = { TellsJob };

    fn from(fault: JobFault) -> Refusal {
        match fault {
            JobFault::Memory => Refusal::Memory,
            other => Refusal::Job(other),
        }
    }
}

impl From<ScriptFault> for Refusal {
    ghost from_gives = { TellsScript };

    fn from(fault: ScriptFault) -> Refusal {
        match fault {
            ScriptFault::Memory => Refusal::Memory,
            ScriptFault::Job(fault) => Refusal::from(fault),
            other => Refusal::Script(other),
        }
    }
}

impl From<CoreFault> for Refusal {
    ghost from_gives = { λ fault e. (fault ≡ CoreFault.Memory → e ≡ Refusal.Memory)
        × (fault ≢ CoreFault.Memory → e ≡ Refusal.Core fault) };

    fn from(fault: CoreFault) -> Refusal {
        match fault {
            CoreFault::Memory => Refusal::Memory,
            other => Refusal::Core(other),
        }
    }
}

impl From<CodecFault> for Refusal {
    ghost from_gives = { λ fault e. (fault ≡ CodecFault.Memory → e ≡ Refusal.Memory)
        × (fault ≢ CodecFault.Memory → e ≡ Refusal.Record fault) };

    fn from(fault: CodecFault) -> Refusal {
        match fault {
            CodecFault::Memory => Refusal::Memory,
            other => Refusal::Record(other),
        }
    }
}

impl From<SourceFault> for Refusal {
    ghost from_gives = { λ fault e. (fault ≡ SourceFault.Memory → e ≡ Refusal.Memory)
        × (fault ≢ SourceFault.Memory → e ≡ Refusal.Source fault) };

    fn from(fault: SourceFault) -> Refusal {
        match fault {
            SourceFault::Memory => Refusal::Memory,
            other => Refusal::Source(other),
        }
    }
}

impl From<NoMemory> for Refusal {
    ghost from_gives = { λ _ e. e ≡ Refusal.Memory };

    fn from(_e: NoMemory) -> Refusal {
        Refusal::Memory
    }
}

impl From<AllocError> for Refusal {
    ghost from_gives = { λ _ e. e ≡ Refusal.Memory };

    fn from(_e: AllocError) -> Refusal {
        Refusal::Memory
    }
}

impl From<TextFault<Refusal>> for Refusal {
    ghost use Rattle.text_parts.specs.declared.fault.TextFault.TheVariants as text;

    ghost from_gives = { λ fault e. (fault ≡ text.Memory → e ≡ Refusal.Memory)
        × (fault ≡ text.Output → e ≡ Refusal.Output)
        × ((refusal : _) → fault ≡ text.Line refusal → e ≡ refusal) };

    fn from(fault: TextFault<Refusal>) -> Refusal {
        match fault {
            TextFault::Line(refusal) => refusal,
            TextFault::Memory => Refusal::Memory,
            TextFault::Output => Refusal::Output,
        }
    }
}

impl Refusal {
    /// Writes the line, with the names that a cycle has.
    pub fn complain<E: Write>(&self, err: &mut E) -> io::Result<()> {
        write!(err, "{self}")?;
        if let Refusal::Job(JobFault::UnmarkedCycle(names)) = self {
            let mut separator = ": ";
            for name in names {
                write!(err, "{separator}{name}")?;
                separator = ", ";
            }
        }
        writeln!(err)
    }
}

/// The exit status of a command: 0, or 1 where it was refused or given up, which is then said.
/// Output that fails is a refusal too.
pub fn finish<W: Write, E: Write>(outcome: Result<(), Refusal>, out: &mut W, err: &mut E) -> u8
    ensures { result ≤ 1 }
{
    let flushed = out.flush().map_err(|_| Refusal::Output);
    match outcome.and(flushed) {
        Ok(()) => 0,
        Err(refusal) => {
            let _ = refusal.complain(err);
            1
        }
    }
}
