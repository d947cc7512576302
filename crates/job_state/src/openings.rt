//! The channels of an attempt that begins.

ghost use Rattle.std.specs.Prelude.{◌≡◌, ◌++◌, [], map, replicate, OnOk, OnErr, IfOk};
ghost use Rattle.std.specs.List.{range_with_len};
ghost use Rattle.channels.specs.declared.item.Item.TheVariants.{Record};
ghost use Rattle.job_state.specs.Held.{opened};
ghost use Rattle.job_state.specs.Sending.{contents_items};

use abs_codec::{Items, NoMemory};
use channels::{Channel, Item};
use std::alloc::Global;

/// So many empty channels.
fn empty_channels<R: Drop>(alloc: Global, count: u32) -> Result<Vec<Channel<R>>, NoMemory>
    ensures { IfOk result (λ channels. contents_items channels.items ≡ replicate count []) }
{
    let mut channels = Vec::new(alloc);
    for number in 0..count {
        channels.push(Channel::new(alloc))?;
    }
    Ok(channels)
}

/// Puts records last into a channel.
fn fill<R: Drop>(channel: &mut Channel<R>, records: Items<R>) -> Result<(), NoMemory>
    ensures { OnOk result (channel.new.items ≡ channel.old.items ++ map Record records) }
{
    channel.reserve(records.len())?;
    for record in records.into_vec() {
        channel.push_reserved(Item::Record(record));
    }
    Ok(())
}

/// So many channels, each with the records that stand first in it. Records that are for no channel
/// are dropped.
pub(crate) fn opened_channels<R: Drop>(
    alloc: Global,
    count: u32,
    openings: Vec<(u32, Items<R>)>,
) -> Result<Vec<Channel<R>>, NoMemory>
    ensures { IfOk result (λ channels. contents_items channels.items
        ≡ map (λ number. map Record (opened openings.items number)) (range_with_len 0 count)) }
{
    let mut channels = empty_channels(alloc, count)?;
    for (number, records) in openings {
        if number < count {
            fill(&mut channels[number as usize], records)?;
        }
    }
    Ok(channels)
}
