//! Why a restart is refused.

use abs_codec::{CodecFault, NoMemory};
use engine_model::CoreFault;
use std::alloc::{AllocError, AllocFailed};
use thiserror::Error;

/// Why a restart is refused.
#[derive(Clone, Copy, Debug, PartialEq, Eq, Error)]
pub enum RecoveryFault {
    /// A device failed.
    #[error("V1 Fault")]
    Fault,
    /// A part of the last complete checkpoint is not there.
    #[error("V2 MissingPart")]
    MissingPart,
    /// The part of this task is damaged, or is not one that the task can start from.
    #[error("V3 Damaged")]
    Damaged(u32, CodecFault),
    /// Memory was refused.
    #[error("V4 Memory")]
    Memory,
}

impl From<NoMemory> for RecoveryFault {
    ghost use Rattle.std.specs.Prelude.{◌≡◌};
    ghost use Rattle.recovery.specs.declared.fault.RecoveryFault.TheVariants.{Memory};

    ghost from_gives = { λ _ e. e ≡ Memory };

    fn from(_e: NoMemory) -> RecoveryFault {
        RecoveryFault::Memory
    }
}

impl From<AllocError> for RecoveryFault {
    ghost use Rattle.std.specs.Prelude.{◌≡◌};
    ghost use Rattle.recovery.specs.declared.fault.RecoveryFault.TheVariants.{Memory};

    ghost from_gives = { λ _ e. e ≡ Memory };

    fn from(_e: AllocError) -> RecoveryFault {
        RecoveryFault::Memory
    }
}

impl<T: Drop> From<AllocFailed<T>> for RecoveryFault {
    ghost use Rattle.std.specs.Prelude.{◌≡◌};
    ghost use Rattle.recovery.specs.declared.fault.RecoveryFault.TheVariants.{Memory};

    ghost from_gives = { λ _ e. e ≡ Memory };

    fn from(_e: AllocFailed<T>) -> RecoveryFault {
        RecoveryFault::Memory
    }
}

impl From<RecoveryFault> for CoreFault {
    ghost use Rattle.std.specs.Prelude.{◌≡◌};
    ghost use Rattle.recovery.specs.Ends.{core_fault};

    ghost from_gives = { λ f e. e ≡ core_fault f };

    fn from(e: RecoveryFault) -> CoreFault {
        match e {
            RecoveryFault::Fault => CoreFault::Device,
            RecoveryFault::MissingPart => CoreFault::BadSnapshot,
            RecoveryFault::Damaged(_, _) => CoreFault::BadSnapshot,
            RecoveryFault::Memory => CoreFault::Memory,
        }
    }
}
