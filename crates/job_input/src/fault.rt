//! Why a job is not run over its inputs.

ghost use Rattle.std.specs.Prelude.{◌≡◌, ◌≢◌};
ghost use Rattle.job_input.specs.Telling.{tells_job};
ghost use Rattle.job_input.specs.declared.fault.InputFault.TheVariants as whole;
ghost use Rattle.job_input.specs.declared.fault.LineFault.TheVariants as one;

use abs_codec::NoMemory;
use job_spec::JobFault;
use line_parts::PartFault;
use script_file::ItemFault;
use source_log::SourceFault;
use std::alloc::AllocError;
use thiserror::Error;

/// Why a line of an input is not taken.
#[derive(Clone, Copy, Debug, PartialEq, Eq, Error)]
pub enum LineFault {
    /// The file can't be read on.
    #[error("unreadable")]
    Unreadable,
    /// It is longer than a line may be, or is no row.
    #[error("bad row")]
    BadRow,
    /// Its partition does not take it.
    #[error("{0}")]
    Source(SourceFault),
    #[error("no memory")]
    Memory,
}

impl From<ItemFault> for LineFault {
    ghost from_gives = { λ fault e. (fault ≡ ItemFault.Bad → e ≡ one.BadRow)
        × (fault ≡ ItemFault.Memory → e ≡ one.Memory) };

    ghost use Rattle.script_file.specs.declared.fault.ItemFault.TheVariants as ItemFault;

    fn from(fault: ItemFault) -> LineFault {
        match fault {
            ItemFault::Bad => LineFault::BadRow,
            ItemFault::Memory => LineFault::Memory,
        }
    }
}

impl From<SourceFault> for LineFault {
    ghost use Rattle.source_log.specs.declared.partitions.SourceFault.TheVariants as SourceFault;

    ghost from_gives = { λ fault e. (fault ≡ SourceFault.Memory → e ≡ one.Memory)
        × (fault ≢ SourceFault.Memory → e ≡ one.Source fault) };

    fn from(fault: SourceFault) -> LineFault {
        match fault {
            SourceFault::Memory => LineFault::Memory,
            other => LineFault::Source(other),
        }
    }
}

impl From<PartFault<LineFault>> for LineFault {
    ghost use Rattle.job_input.specs.declared.fault.LineFault.{LineFault};
    ghost use Rattle.line_parts.specs.declared.part.PartFault.TheVariants as PartFault;

    ghost from_gives = { λ fault e. (fault ≡ PartFault.Memory → e ≡ one.Memory)
        × ((line : LineFault) → fault ≡ PartFault.Line line → e ≡ line) };

    fn from(fault: PartFault<LineFault>) -> LineFault {
        match fault {
            PartFault::Line(fault) => fault,
            PartFault::Memory => LineFault::Memory,
        }
    }
}

/// The first fault of a job and its inputs. Inputs are counted from 0, their lines from 1. Its text
/// is the line on standard error, without the names of G9.
#[derive(Debug, Drop, Error)]
pub enum InputFault<'a> {
    /// The file of this name can't be read.
    #[error("cannot read {0}")]
    Unreadable(&'a str),
    #[error("{0}")]
    Job(JobFault),
    /// The source tasks that want an input each, and the inputs.
    #[error("inputs: want {want}, got {got}")]
    Inputs { want: u32, got: usize },
    #[error("input {input} line {line}: bad row")]
    BadRow { input: u32, line: u64 },
    /// A partition that takes no more rows.
    #[error("{0}")]
    Source(SourceFault),
    #[error("no memory")]
    Memory,
}

impl From<JobFault> for InputFault<'_> {
    ghost from_gives = { λ fault e. e ≡ tells_job fault };

    fn from(fault: JobFault) -> Self {
        match fault {
            JobFault::Memory => InputFault::Memory,
            other => InputFault::Job(other),
        }
    }
}

impl From<NoMemory> for InputFault<'_> {
    ghost from_gives = { λ _ e. e ≡ whole.Memory };

    fn from(_e: NoMemory) -> Self {
        InputFault::Memory
    }
}

impl From<AllocError> for InputFault<'_> {
    ghost from_gives = { λ _ e. e ≡ whole.Memory };

    fn from(_e: AllocError) -> Self {
        InputFault::Memory
    }
}

impl From<SourceFault> for InputFault<'_> {
    ghost use Rattle.source_log.specs.declared.partitions.SourceFault.TheVariants as SourceFault;

    ghost from_gives = { λ fault e. (fault ≡ SourceFault.Memory → e ≡ whole.Memory)
        × (fault ≢ SourceFault.Memory → e ≡ whole.Source fault) };

    fn from(fault: SourceFault) -> Self {
        match fault {
            SourceFault::Memory => InputFault::Memory,
            other => InputFault::Source(other),
        }
    }
}

/// What the fault of a line is to the whole.
pub(crate) fn fault_at(fault: LineFault, name: &str, input: u32, line: u64) -> InputFault<'_> {
    match fault {
        LineFault::Unreadable => InputFault::Unreadable(name),
        LineFault::BadRow => InputFault::BadRow { input, line },
        LineFault::Source(fault) => InputFault::Source(fault),
        LineFault::Memory => InputFault::Memory,
    }
}
