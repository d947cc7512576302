//! Why a call on the engine is refused.

use abs_codec::NoMemory;
use thiserror::Error;

#[derive(Clone, Copy, Debug, PartialEq, Eq, Error)]
pub enum CoreFault {
    /// The job is down.
    #[error("K1 NotRunning")]
    NotRunning,
    /// There is no task of that number and kind, no such input, or no such sink.
    #[error("K2 NoSuchTask")]
    NoSuchTask,
    /// There is nothing to take, or it was done already.
    #[error("K3 NotReady")]
    NotReady,
    /// The barrier of that input has come, and the task waits for others.
    #[error("K4 ChannelBlocked")]
    ChannelBlocked,
    /// The task holds a claim.
    #[error("K5 Busy")]
    Busy,
    /// The result is of no claim that is held now.
    #[error("K6 Stale")]
    Stale,
    /// The result is of another operator, state or record.
    #[error("K7 WrongResult")]
    WrongResult,
    /// A checkpoint is pending.
    #[error("K8 CheckpointPending")]
    CheckpointPending,
    /// No checkpoint is pending.
    #[error("K9 NoCheckpoint")]
    NoCheckpoint,
    /// A task's part of the pending checkpoint is not in the store.
    #[error("K10 NotAllAcked")]
    NotAllAcked,
    /// Memory was refused.
    #[error("K11 Memory")]
    Memory,
    /// A device failed, and the job is down.
    #[error("K12 Device")]
    Device,
    /// A transaction's commit failed, and is to be asked for again.
    #[error("K13 CommitFault")]
    CommitFault,
    /// No number is left for a checkpoint, or for an attempt.
    #[error("K14 NumbersSpent")]
    NumbersSpent,
    /// The devices hold what no engine of this graph put there.
    #[error("K15 BadSnapshot")]
    BadSnapshot,
}

impl From<NoMemory> for CoreFault {
    ghost use Rattle.std.specs.Prelude.{◌≡◌};
    ghost use Rattle.engine_model.specs.declared.fault.CoreFault.TheVariants.{Memory};

    ghost from_gives = { λ _ e. e ≡ Memory };

    fn from(_e: NoMemory) -> CoreFault {
        CoreFault::Memory
    }
}
