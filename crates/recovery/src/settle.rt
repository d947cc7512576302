//! The transactions are settled.

ghost use Rattle.std.specs.Prelude.{◌≡◌, ◌≢◌, ◌<◌, ◌^◌, length, All, Err, MatchResult};
ghost use Rattle.recovery.specs.declared.fault.RecoveryFault.TheVariants as RecoveryFault;
ghost use Rattle.recovery.specs.Ends as faults;
ghost use Rattle.recovery.specs.Ends.{EndsTake, TakeAll, StopTaking, IsBelow};

use crate::fault::RecoveryFault;
use crate::parts::Restored;
use abs_codec::{CodecFault, Items};
use commit_sink::{Sink, Transactions};
use engine_model::Start;
use job_state::Holding;
use operators::Operator;
use settlement::{SettlementFault, settle_sink};
use std::alloc::Global;

/// Why a restart is refused where a sink's transactions were not settled.
fn sink_fault(task: u32, fault: SettlementFault) -> RecoveryFault
    ensures { result ≡ faults.sink_fault task fault }
{
    match fault {
        SettlementFault::Fault => RecoveryFault::Fault,
        SettlementFault::NamesOther => RecoveryFault::Damaged(task, CodecFault::BadTag),
        SettlementFault::Memory => RecoveryFault::Memory,
    }
}

/// What a task holds when it starts, and the logs that it starts from; a sink settles its
/// transactions.
fn take<R: Drop, K: Ord + Drop, S: Drop, X: Transactions>(
    alloc: Global,
    task: u32,
    start: Start<R, K, S>,
    transactions: &mut X,
) -> Result<(Holding<K, S>, Items<(u32, Items<R>)>), RecoveryFault>
    requires { IsBelow (X.state transactions.old).subtasks start }
    ensures ends { EndsTake (X.state transactions.old) (X.state transactions.new)
        task start result }
    ensures same { (X.state transactions.new).subtasks ≡ (X.state transactions.old).subtasks }
    ensures counted { result ≡ Err RecoveryFault.Fault
        → X.fault_count transactions.old < X.fault_count transactions.new }
    ensures told { result ≢ Err RecoveryFault.Fault
        → X.fault_count transactions.new ≡ X.fault_count transactions.old }
{
    match start {
        Start::Source(offset) => Ok((Holding::Source(offset), Items::new(alloc))),
        Start::Operator(states, logs) => Ok((Holding::Operator(states), logs)),
        Start::Sink(subtask, names, logs) => {
            match settle_sink(subtask, names.as_slice(), transactions) {
                Ok(opened) => Ok((Holding::Sink(Sink::new(alloc, opened)), logs)),
                Err(fault) => Err(sink_fault(task, fault)),
            }
        }
    }
}

/// Each task takes what it starts from, and each sink settles its transactions: what the tasks
/// hold, and the logs of all of them. Where a sink's part names a transaction that may not be
/// committed, that part is damaged, and what was settled before stays so.
pub fn settle_transactions<O: Operator, X: Transactions>(
    alloc: Global,
    restored: Restored<O>,
    transactions: &mut X,
) -> Result<(Vec<Holding<O::Key, O::State>>, Vec<(u32, Items<O::Record>)>), RecoveryFault>
    requires few { length restored.1 < 2 ^ 32 }
    requires below { All (IsBelow (X.state transactions.old).subtasks) restored.1 }
    ensures ends { MatchResult result (λ x. TakeAll (X.state transactions.old)
        (X.state transactions.new) restored.1 (x.0.items, x.1.items))
        (StopTaking (X.state transactions.old) (X.state transactions.new) restored.1) }
    ensures counted { result ≡ Err RecoveryFault.Fault
        → X.fault_count transactions.old < X.fault_count transactions.new }
    ensures told { result ≢ Err RecoveryFault.Fault
        → X.fault_count transactions.new ≡ X.fault_count transactions.old }
{
    let mut tasks = Vec::new(alloc);
    let mut openings = Vec::new(alloc);
    for start in restored.starts {
        let task = tasks.len() as u32;
        let (holding, logs) = take(alloc, task, start, transactions)?;
        openings.append(&mut logs.into_vec())?;
        tasks.push(holding)?;
    }
    Ok((tasks, openings))
}
