//! Several records that are taken from a channel.

ghost use Rattle.std.specs.Prelude.{◌≡◌, ◌<◌, ◌≤◌, ℕ, List, true, take, map, length};
ghost use Rattle.backedge_log.specs.Recorded.{log_at};
ghost use Rattle.channels.specs.Items.{leading_records};
ghost use Rattle.channels.specs.declared.item.Item.TheVariants.{Record};
ghost use Rattle.job_state.specs.AtOnce.{without_first, log_with_all};
ghost use Rattle.job_state.specs.Inside.{came_of, records_of};
ghost use Rattle.job_state.specs.Sending.{contents_items, items_at, put_into, room_at, HasPlace, Puts, puts_of};

use crate::logs::log_taken;
use crate::ready::{Ready, push_ready};
use crate::sending::{skip, take_head};
use backedge_log::Logs;
use channels::Channel;

/// Takes the first records of a channel, and logs them, if they are to be logged. It takes no
/// memory.
fn take_all<R: Drop>(
    channels: &mut [Channel<R>],
    logs: &mut Logs<R>,
    channel: u32,
    is_logged: bool,
    count: usize,
)
    requires within { channel < length logs.old }
    requires room { is_logged ≡ true → count ≤ (log_at logs.old channel).room }
    requires records { count ≤ length (leading_records (items_at (contents_items channels.old)
        channel)) }
    ensures rest { contents_items channels.new
        ≡ without_first count channel (contents_items channels.old) }
    ensures room { (number : ℕ) → room_at channels.old number ≤ room_at channels.new number }
    ensures came { came_of logs.new ≡ came_of logs.old }
    ensures logged { (rows : List R) → count ≡ length rows
        → take count (items_at (contents_items channels.old) channel) ≡ map Record rows
        → records_of logs.new ≡ log_with_all is_logged channel rows (records_of logs.old) }
{
    if !is_logged {
        return skip(channels, channel, count);
    }
    for _ in 0..count {
        let taken = take_head(channels, channel);
        log_taken(logs, channel, is_logged, taken);
    }
}

/// Takes the first records of a channel, logs them, if they are to be logged, and puts what the
/// task sends last in its channels. It takes no memory.
pub(crate) fn pass_on_all<R: Drop>(
    channels: &mut [Channel<R>],
    logs: &mut Logs<R>,
    channel: u32,
    is_logged: bool,
    count: usize,
    ready: Ready<R>,
)
    requires within { channel < length logs.old }
    requires spare { is_logged ≡ true → count ≤ (log_at logs.old channel).room }
    requires records { count ≤ length (leading_records (items_at (contents_items channels.old)
        channel)) }
    requires place { HasPlace channels.old ready }
    ensures puts { Puts (λ number. put_into number (puts_of ready))
        (without_first count channel (contents_items channels.old)) (contents_items channels.new) }
    ensures came { came_of logs.new ≡ came_of logs.old }
    ensures logged { (rows : List R) → count ≡ length rows
        → take count (items_at (contents_items channels.old) channel) ≡ map Record rows
        → records_of logs.new ≡ log_with_all is_logged channel rows (records_of logs.old) }
{
    take_all(channels, logs, channel, is_logged, count);
    push_ready(channels, ready);
}
