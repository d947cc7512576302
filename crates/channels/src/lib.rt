//! Channels between the tasks of a job: a channel delivers in the order of sending. Proved: a
//! channel is a list, and each call its list's.
//!
//! A [`Channel`] is a list of items, each a record or a barrier, and the number of items that it
//! takes without memory. Items are pushed at the end and popped at the front. Room is reserved
//! first, and then a push can't fail. The records stand in a queue of their own, so the records
//! before the first barrier are found by their places, and no call takes longer in a longer
//! channel.
#![tactic(auto)]

mod channel;
mod item;
mod spaced_barrier;

pub use channel::Channel;
pub use item::Item;
