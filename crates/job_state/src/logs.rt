//! The logs of the channels.

ghost use Rattle.std.specs.Prelude.{◌≡◌, ◌<◌, ◌≤◌, ◌+◌, [], true, false, Some, length, replicate, slice_set, slice_get, unwrap_or, OnOk, OnErr, IfOk};
ghost use Rattle.backedge_log.specs.Recorded.{log_at, without_last};
ghost use Rattle.channels.specs.declared.item.Item.TheVariants.{Record};
ghost use Rattle.job_state.specs.Held.{log_with};
ghost use Rattle.job_state.specs.Inside.{came_of, records_of};

use abs_codec::{Codec, NoMemory};
use backedge_log::Logs;
use channels::Item;
use std::alloc::Global;

/// Every log is empty, and no barrier has come. It takes no memory.
pub(crate) fn reopen<R: Drop>(logs: &mut Logs<R>)
    ensures came { came_of logs.new ≡ replicate (length (came_of logs.old)) false }
    ensures logged { records_of logs.new ≡ replicate (length (records_of logs.old)) [] }
{
    logs.reopen();
}

/// Empty logs of so many channels, with no barrier that has come.
pub(crate) fn open_logs<R: Drop>(alloc: Global, count: u32) -> Result<Logs<R>, NoMemory>
    ensures came { IfOk result (λ logs. came_of logs ≡ replicate count false) }
    ensures logged { IfOk result (λ logs. records_of logs ≡ replicate count []) }
{
    let mut logs = Logs::new(alloc, count)?;
    reopen(&mut logs);
    Ok(logs)
}

/// Takes room in the channel's log for so many records, if they are to be logged.
pub(crate) fn reserve_log<R: Drop>(
    logs: &mut Logs<R>,
    channel: u32,
    is_logged: bool,
    count: usize,
) -> Result<(), NoMemory>
    requires { channel < length logs.old }
    ensures room { OnOk result (is_logged ≡ true → count ≤ (log_at logs.new channel).room) }
    ensures came { came_of logs.new ≡ came_of logs.old }
    ensures logged { records_of logs.new ≡ records_of logs.old }
{
    if is_logged {
        logs.reserve(channel, count)?;
    }
    Ok(())
}

/// Logs the record that was taken from the channel, if it is to be logged. It takes no memory.
pub(crate) fn log_taken<R: Drop>(
    logs: &mut Logs<R>,
    channel: u32,
    is_logged: bool,
    taken: Option<Item<R>>,
)
    requires within { channel < length logs.old }
    requires room { is_logged ≡ true → 0 < (log_at logs.old channel).room }
    ensures room { (log_at logs.old channel).room ≤ (log_at logs.new channel).room + 1 }
    ensures came { came_of logs.new ≡ came_of logs.old }
    ensures logged { (row : R) → taken ≡ Some (Record row)
        → records_of logs.new ≡ log_with is_logged channel row (records_of logs.old) }
{
    if let Some(Item::Record(row)) = taken {
        if is_logged {
            logs.push_reserved(channel, row);
        }
    }
}

/// Logs a copy of a record.
pub(crate) fn log_copy<R: Codec>(logs: &mut Logs<R>, channel: u32, row: &R) -> Result<(), NoMemory>
    requires { channel < length logs.old }
    ensures came { came_of logs.new ≡ came_of logs.old }
    ensures ok { OnOk result (records_of logs.new
        ≡ log_with true channel row.now (records_of logs.old)) }
    ensures err { OnErr result (records_of logs.new ≡ records_of logs.old) }
{
    let row = row.copied()?;
    logs.reserve(channel, 1)?;
    logs.push_reserved(channel, row);
    Ok(())
}

/// The newest record of the channel's log is taken away again.
pub(crate) fn drop_last<R: Drop>(logs: &mut Logs<R>, channel: u32)
    requires { channel < length logs.old }
    ensures came { came_of logs.new ≡ came_of logs.old }
    ensures logged { records_of logs.new ≡ slice_set (records_of logs.old) channel
        (without_last (unwrap_or (slice_get (records_of logs.old) channel) [])) }
{
    logs.drop_last(channel);
}

/// The barrier has come from the channel.
pub(crate) fn close<R: Drop>(logs: &mut Logs<R>, channel: u32)
    requires { channel < length (came_of logs.old) }
    ensures came { came_of logs.new ≡ slice_set (came_of logs.old) channel true }
    ensures logged { records_of logs.new ≡ records_of logs.old }
{
    logs.close(channel);
}
