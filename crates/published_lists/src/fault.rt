//! Why a call is refused.

use std::alloc::AllocError;

/// Why a call of a writer or of a reader is refused.
#[derive(Clone, Copy, Debug, PartialEq, Eq)]
pub enum OutputFault {
    /// Memory was refused, or a place among the readers.
    Memory,
    /// All readers were handed out.
    ReadersFull,
    /// The writer has ended.
    Closed,
}

impl From<AllocError> for OutputFault {
    ghost use Rattle.published_lists.specs.declared.fault.OutputFault.TheVariants.{Memory};
    ghost use Rattle.std.specs.Prelude.{◌≡◌};

    ghost from_gives = { λ _ e. e ≡ Memory };

    fn from(_e: AllocError) -> OutputFault {
        OutputFault::Memory
    }
}
