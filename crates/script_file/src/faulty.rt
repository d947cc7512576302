//! The calls of devices that a script lets fail.

ghost use Rattle.std.specs.Prelude.{◌≡◌};
ghost use Rattle.script_file.specs.Faults.{FindsItem};
ghost use Rattle.script_file.specs.Faulty.{call_of, when_of, fault_of};

use crate::fault::ItemFault;
use crate::step::cut;
use commit_sink::TransactionCall;
use engine_steps::DeviceCall;
use fault_plan::When;
use snapshot_store::StoreCall;
use source_log::LogCall;

#[tactic(auto, unfolding(crate::specs::Faulty::call_of))]
fn call_of(word: &str) -> Result<DeviceCall, ItemFault>
    ensures { FindsItem (λ c. c) result (call_of word.now) }
{
    match word {
        "log.read" => Ok(DeviceCall::Log(LogCall::Read)),
        "log.append" => Ok(DeviceCall::Log(LogCall::Append)),
        "store.reserve" => Ok(DeviceCall::Store(StoreCall::Reserve)),
        "store.put" => Ok(DeviceCall::Store(StoreCall::Put)),
        "store.complete" => Ok(DeviceCall::Store(StoreCall::Complete)),
        "store.latest" => Ok(DeviceCall::Store(StoreCall::Latest)),
        "store.get" => Ok(DeviceCall::Store(StoreCall::Get)),
        "store.discard" => Ok(DeviceCall::Store(StoreCall::DiscardBelow)),
        "txn.begin" => Ok(DeviceCall::Transactions(TransactionCall::Begin)),
        "txn.append" => Ok(DeviceCall::Transactions(TransactionCall::Append)),
        "txn.pre_commit" => Ok(DeviceCall::Transactions(TransactionCall::PreCommit)),
        "txn.commit" => Ok(DeviceCall::Transactions(TransactionCall::Commit)),
        "txn.abort" => Ok(DeviceCall::Transactions(TransactionCall::Abort)),
        "txn.unsettled" => Ok(DeviceCall::Transactions(TransactionCall::Unsettled)),
        _ => Err(ItemFault::Bad),
    }
}

fn when_of(word: &str) -> Result<When, ItemFault>
    ensures { FindsItem (λ w. w) result (when_of word.now) }
{
    match word {
        "before" => Ok(When::Before),
        "after" => Ok(When::After),
        _ => Err(ItemFault::Bad),
    }
}

/// The call and when it fails, parted by one space.
#[tactic(auto, unfolding(crate::specs::Faulty::fault_of))]
pub(crate) fn fault(text: &str) -> Result<(DeviceCall, When), ItemFault>
    ensures { FindsItem (λ p. p) result (fault_of text.now) }
{
    let (call, when) = cut(text)?;
    Ok((call_of(call)?, when_of(when)?))
}
