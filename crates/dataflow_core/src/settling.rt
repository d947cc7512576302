//! Settling and draining: many steps in one call, while no claim is out.

ghost use Rattle.std.specs.Prelude.{◌≡◌, ◌↔◌, ℕ, [], IsTrue};
ghost use Rattle.engine.specs.Running.{IsCounted};
ghost use Rattle.dataflow_core.specs.Steps.{IsStep};
ghost use Rattle.dataflow_core.specs.Unclaimed.{Settles, Drains};

use crate::calls::Core;
use commit_sink::Transactions;
use engine::CoreFault;
use engine_model::Rules;
use engine_settling::{Drained, drain, settle};
use operators::Operator;
use snapshot_store::SnapshotStore;
use source_log::Partitions;

impl<O: Operator, S: SnapshotStore, X: Transactions, P: Partitions<Record = O::Record>> Core<
    O,
    S,
    X,
    P,
> {
    /// Completes the pending checkpoint, and has every sink commit it. Sources that have not copied
    /// do; then each task works its unmarked inputs up to their barriers, in an order in which it
    /// comes behind the senders of these, and then its marked ones; the parts are put, the
    /// checkpoint is completed, and the sinks commit. It works without claims, and spends no
    /// serial. Refused by `K5` where a claim is out, by `K9` where no checkpoint is pending, and
    /// else only where memory is refused (`K11`) or a device fails (`K12`, `K13`); what was done
    /// stays.
    pub fn settle(&mut self) -> Result<(), CoreFault>
        ensures ends { Settles self.old self.new ⟦<O as Rules>⟧.all result }
        ensures step { IsStep ⟦<O as Rules>⟧.all self.old.engine self.new.engine }
        ensures counted { IsCounted self.old.engine.faults self.new.engine.faults result }
        ensures claims { self.new ≡ record self.old { engine = self.new.engine } }
    {
        if !self.engine.is_running() {
            return Err(CoreFault::NotRunning);
        }
        if !self.claims.is_empty() {
            return Err(CoreFault::Busy);
        }
        let Core { alloc, engine, .. } = self;
        settle(engine, *alloc)
    }

    /// Brings the job to rest. What is pending is settled, and every sink commits; then each task
    /// in turn makes a step, if it has one: a source reads a record, another task works one of its
    /// lowest input that has one. Where no step is left, a last checkpoint is taken and committed,
    /// and the answer is `AtRest`: the sinks of a sound core have then committed the whole output
    /// of a plain run that has ended. Where as many steps were made as there are turns, and a
    /// further one is possible, it is `TurnsSpent`. It works without claims, and spends no serial.
    /// Refused as `settle` is where a checkpoint is pending, and by `K14` where no number is left
    /// for the last checkpoint; what was done stays.
    pub fn drain(&mut self, turns: u64) -> Result<Drained, CoreFault>
        ensures ends { Drains self.old self.new ⟦<O as Rules>⟧.all turns result }
        ensures step { IsStep ⟦<O as Rules>⟧.all self.old.engine self.new.engine }
        ensures counted { IsCounted self.old.engine.faults self.new.engine.faults result }
        ensures claims { self.new ≡ record self.old { engine = self.new.engine } }
    {
        if !self.engine.is_running() {
            return Err(CoreFault::NotRunning);
        }
        if !self.claims.is_empty() {
            return Err(CoreFault::Busy);
        }
        let Core { alloc, engine, .. } = self;
        drain(engine, *alloc, turns)
    }
}
