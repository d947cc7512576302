//! Parts of checkpoints in the store.

ghost use Rattle.std.specs.Prelude.{◌≡◌, ◌≢◌, Err, None};
ghost use Rattle.snapshot_store.specs.Store.{Ends, put_refusal, with_part};
ghost use Rattle.snapshot_store.specs.declared.store.StoreFault.TheVariants as StoreFault;
ghost use Rattle.checkpoint_devices.specs.Ends.{older_discarded, EndsPut};

use bytes::Bytes;
use snapshot_store::{SnapshotStore, StoreFault};

/// Why a part was not put.
#[derive(Clone, Copy, Debug, PartialEq, Eq)]
pub enum PutFault {
    /// Memory was refused.
    Memory,
    /// The device failed, before its work or after it.
    Device,
}

/// Drops the parts below the last complete number, if there is one.
pub fn discard_older<S: SnapshotStore>(
    store: &mut S,
    last_complete: Option<u64>,
) -> Result<(), StoreFault>
    ensures ends { Ends (S.state store.old, S.fault_count store.old)
        (S.state store.new, S.fault_count store.new)
        None (older_discarded last_complete (S.state store.old)) result }
    ensures told { result ≢ Err StoreFault.Fault
        → S.fault_count store.new ≡ S.fault_count store.old }
    ensures takes_no_memory { result ≢ Err StoreFault.Memory }
{
    match last_complete {
        Some(last) => store.discard_below(last),
        None => Ok(()),
    }
}

/// Puts the part of a task, whose bytes are not copied. Only memory or the device can refuse it.
pub fn put_part<S: SnapshotStore>(
    store: &mut S,
    checkpoint: u64,
    task: u32,
    bytes: Bytes,
) -> Result<(), PutFault>
    requires { put_refusal (S.state store.old) checkpoint task ≡ None }
    ensures { EndsPut (S.state store.old, S.fault_count store.old)
        (S.state store.new, S.fault_count store.new)
        (with_part (S.state store.old) checkpoint task bytes) result }
{
    match store.put_shared(checkpoint, task, bytes) {
        Ok(()) => Ok(()),
        Err(StoreFault::Memory) => Err(PutFault::Memory),
        Err(_) => Err(PutFault::Device),
    }
}
