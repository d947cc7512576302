//! Why the machine gave up.

ghost use Rattle.std.specs.Prelude.{◌≡◌};
ghost use Rattle.plain_machine.specs.declared.fault.PlainFault.TheVariants.{Memory};

use abs_codec::NoMemory;
use std::alloc::{AllocError, AllocFailed};
use thiserror::Error;

/// Why a move was given up. The configuration is then as it was before the move.
#[derive(Clone, Copy, Debug, PartialEq, Eq, Error)]
pub enum PlainFault {
    /// An operator was given a record that does not fit, or has a state that it cannot go on from.
    #[error("an operator was given what it does not take")]
    Unfit,
    /// Memory was refused.
    #[error("no memory")]
    Memory,
}

impl From<AllocError> for PlainFault {
    ghost from_gives = { λ _ e. e ≡ Memory };

    fn from(_e: AllocError) -> PlainFault {
        PlainFault::Memory
    }
}

impl<T: Drop> From<AllocFailed<T>> for PlainFault {
    ghost from_gives = { λ _ e. e ≡ Memory };

    fn from(_e: AllocFailed<T>) -> PlainFault {
        PlainFault::Memory
    }
}

impl From<NoMemory> for PlainFault {
    ghost from_gives = { λ _ e. e ≡ Memory };

    fn from(_e: NoMemory) -> PlainFault {
        PlainFault::Memory
    }
}
