//! Calls of devices.

use commit_sink::TransactionCall;
use snapshot_store::StoreCall;
use source_log::LogCall;

/// A call of one of a core's devices.
#[derive(Clone, Copy, Debug)]
pub enum DeviceCall {
    Log(LogCall),
    Store(StoreCall),
    Transactions(TransactionCall),
}
