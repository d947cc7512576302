//! What a caller of the core concludes: however a job is brought to its end, its committed rows are
//! exactly once, and all of them where it came to rest.
#![tactic(auto)]

ghost use Rattle.std.specs.Prelude.{◌≡◌, IsTrue, Ok};
ghost use Rattle.engine_model.specs.ExactlyOnce.{IsExactlyOnce};
ghost use Rattle.engine_rounds.specs.declared.ending.Drained.TheVariants as Drained;
ghost use Rattle.engine_settling.specs.Whole.{IsWhole};

use commit_sink::Transactions;
use dataflow_core::{Core, CoreFault, Drained, Rules};
use operators::Operator;
use snapshot_store::SnapshotStore;
use source_log::Partitions;

/// Starts a job that is down, and brings it to its end, in at most so many turns. Where it comes to
/// rest, its sinks have committed all that they put out.
pub fn end_job<O: Operator, S: SnapshotStore, X: Transactions, P: Partitions<Record = O::Record>>(
    core: &mut Core<O, S, X, P>,
    turns: u64,
) -> Result<Drained, CoreFault>
    requires fresh { IsTrue core.old.engine.is_fresh }
    ensures exact { IsExactlyOnce ⟦<O as Rules>⟧.lang core.new.engine }
    ensures whole { result ≡ Ok Drained.AtRest → IsWhole ⟦<O as Rules>⟧.lang core.new.engine }
{
    let started = core.restart();
    core.is_fresh();
    match started {
        Ok(_) => {}
        Err(fault) => return Err(fault),
    }
    let ended = core.drain(turns);
    core.is_fresh();
    ended
}
