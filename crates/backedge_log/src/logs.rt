//! The logs of so many channels.

ghost use Rattle.std.specs.Prelude.{◌≡◌, ◌<◌, ◌≤◌, ◌-◌, [], ◌∷◌, ◌++◌, true, false, length, slice_set, OnOk, OnErr, IfOk};
ghost use Rattle.backedge_log.specs.Recorded.{log_at, without_last, AllClosed, AllFresh};

use crate::log::Log;
use abs_codec::NoMemory;
use std::alloc::Global;
use std::marker::Model;

/// One log a channel, by channel number.
#[derive(Drop)]
pub struct Logs<R: Drop> {
    logs: Vec<Log<R>>,
}

impl<R: Drop> Model for Logs<R> {
    ghost use Rattle.std.specs.Prelude.{List};
    ghost use Rattle.backedge_log.specs.Recorded.{Recorded};

    ghost Value = { List (Recorded R) };

    ghost view = { λ l. l.logs.items };
}

impl<R: Drop> Logs<R> {
    /// Empty logs of so many channels, none of them open.
    pub fn new(alloc: Global, channels: u32) -> Result<Self, NoMemory>
        ensures channels { IfOk result (λ logs. length logs ≡ channels) }
        ensures closed { IfOk result AllClosed }
    {
        let mut logs = Vec::with_capacity(alloc, channels as usize)?;
        for _ in 0..channels {
            logs.push_reserved(Log::new(alloc));
        }
        Ok(Logs { logs })
    }

    /// How many channels there are.
    pub fn channels(&self) -> usize
        ensures { result ≡ length self.now }
    {
        self.logs.len()
    }

    /// What stands in the channel's log.
    pub fn records(&self, channel: u32) -> &[R]
        requires { channel < length self.now }
        ensures { result.now ≡ (log_at self.now channel).records }
    {
        self.logs[channel as usize].records()
    }

    /// Whether the channel's log is open: the pending checkpoint's barrier has not come from the
    /// channel.
    pub fn is_open(&self, channel: u32) -> bool
        requires { channel < length self.now }
        ensures { result ≡ (log_at self.now channel).is_open }
    {
        self.logs[channel as usize].is_open()
    }

    /// The channel's log is open from now on, and empty. It takes no memory.
    pub fn open(&mut self, channel: u32)
        requires { channel < length self.old }
        ensures after { self.new ≡ slice_set self.old channel
            (record { records = []; is_open = true; room = (log_at self.new channel).room }) }
        ensures room { (log_at self.old channel).room ≤ (log_at self.new channel).room }
    {
        self.logs[channel as usize].open();
    }

    /// Every log is empty and open from now on. It takes no memory.
    pub fn reopen(&mut self)
        ensures channels { length self.new ≡ length self.old }
        ensures fresh { AllFresh self.new }
    {
        for log in self.logs.iter_mut() {
            log.open();
        }
    }

    /// The channel's log is closed from now on, and stays as it is: the barrier has come. It takes
    /// no memory.
    pub fn close(&mut self, channel: u32)
        requires { channel < length self.old }
        ensures { self.new ≡ slice_set self.old channel
            (record (log_at self.old channel) { is_open = false }) }
    {
        self.logs[channel as usize].close();
    }

    /// Takes room for so many records in the channel's log.
    pub fn reserve(&mut self, channel: u32, count: usize) -> Result<(), NoMemory>
        requires { channel < length self.old }
        ensures ok { OnOk result (count ≤ (log_at self.new channel).room) }
        ensures refused { OnErr result ((log_at self.old channel).room < count) }
        ensures room { (log_at self.old channel).room ≤ (log_at self.new channel).room }
        ensures same { self.new ≡ slice_set self.old channel
            (record (log_at self.old channel) { room = (log_at self.new channel).room }) }
    {
        self.logs[channel as usize].reserve(count)
    }

    /// Logs a record. It takes no memory.
    pub fn push_reserved(&mut self, channel: u32, taken: R)
        requires within { channel < length self.old }
        requires room { 0 < (log_at self.old channel).room }
        ensures { let log = log_at self.old channel in
            self.new ≡ slice_set self.old channel
            (record log { records = log.records ++ taken ∷ []; room = log.room - 1 }) }
    {
        self.logs[channel as usize].push_reserved(taken);
    }

    /// Takes the newest record of the channel's log away again.
    pub fn drop_last(&mut self, channel: u32)
        requires { channel < length self.old }
        ensures after { let log = log_at self.old channel in
            self.new ≡ slice_set self.old channel
            (record log {
              records = without_last log.records;
              room = (log_at self.new channel).room;
            }) }
        ensures room { (log_at self.old channel).room ≤ (log_at self.new channel).room }
    {
        self.logs[channel as usize].drop_last();
    }
}
