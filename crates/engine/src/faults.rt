//! Faults of flaky devices.

ghost use Rattle.std.specs.Prelude.{◌≡◌};

use crate::calls::Engine;
use commit_sink::{FaultlessTransactions, FlakyTransactions};
use engine_steps::DeviceCall;
use fault_plan::When;
use operators::Operator;
use snapshot_store::{FaultlessStore, FlakyStore};
use source_log::{FaultlessLog, FlakyLog, Partitions};

impl<
    O: Operator,
    S: FaultlessStore,
    X: FaultlessTransactions,
    P: FaultlessLog + Partitions<Record = O::Record>,
> Engine<O, FlakyStore<S>, FlakyTransactions<X>, FlakyLog<P>> {
    /// The next call of the kind fails, before its work or after it. Nothing but the device's plan
    /// changes.
    pub fn arm(&mut self, call: DeviceCall, when: When)
        ensures { self.new ≡ self.old }
    {
        match call {
            DeviceCall::Log(call) => self.log.arm(call, when),
            DeviceCall::Store(call) => self.store.arm(call, when),
            DeviceCall::Transactions(call) => self.transactions.arm(call, when),
        }
    }
}
