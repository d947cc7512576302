//! The log of one channel.

ghost use Rattle.std.specs.Prelude.{◌≡◌, ◌<◌, ◌≤◌, ◌-◌, [], ◌∷◌, ◌++◌, true, false, OnOk, OnErr};
ghost use Rattle.backedge_log.specs.Recorded.{without_last};

use abs_codec::NoMemory;
use std::alloc::Global;
use std::marker::Model;

/// What was taken from a channel since its log was opened. It is open as long as the pending
/// checkpoint's barrier has not come from the channel.
#[derive(Drop)]
pub struct Log<R: Drop> {
    records: Vec<R>,
    is_open: bool,
}

impl<R: Drop> Model for Log<R> {
    ghost use Rattle.std.specs.Prelude.{◌-◌, vec_len, vec_capacity};
    ghost use Rattle.backedge_log.specs.Recorded.{Recorded};

    ghost Value = { Recorded R };

    ghost view = { λ l. record {
      records = l.records.items;
      is_open = l.is_open;
      room = vec_capacity l.records - vec_len l.records;
    } };
}

impl<R: Drop> Log<R> {
    pub fn new(alloc: Global) -> Self
        ensures { result ≡ record { records = []; is_open = false; room = result.room } }
    {
        Log {
            records: Vec::new(alloc),
            is_open: false,
        }
    }

    pub fn records(&self) -> &[R]
        ensures { result.now ≡ self.now.records }
    {
        &self.records
    }

    pub fn is_open(&self) -> bool
        ensures { result ≡ self.now.is_open }
    {
        self.is_open
    }

    pub fn open(&mut self)
        ensures after { self.new ≡ record { records = []; is_open = true; room = self.new.room } }
        ensures room { self.old.room ≤ self.new.room }
    {
        self.records.clear();
        self.is_open = true;
    }

    pub fn close(&mut self)
        ensures { self.new ≡ record self.old { is_open = false } }
    {
        self.is_open = false;
    }

    pub fn reserve(&mut self, count: usize) -> Result<(), NoMemory>
        ensures ok { OnOk result (count ≤ self.new.room) }
        ensures refused { OnErr result (self.old.room < count) }
        ensures room { self.old.room ≤ self.new.room }
        ensures same { self.new ≡ record self.old { room = self.new.room } }
    {
        self.records.reserve(count)?;
        Ok(())
    }

    pub fn push_reserved(&mut self, taken: R)
        requires { 0 < self.old.room }
        ensures { self.new ≡ record self.old {
          records = self.old.records ++ taken ∷ [];
          room = self.old.room - 1;
        } }
    {
        self.records.push_reserved(taken);
    }

    pub fn drop_last(&mut self)
        ensures after { self.new ≡ record self.old {
          records = without_last self.old.records;
          room = self.new.room;
        } }
        ensures room { self.old.room ≤ self.new.room }
    {
        self.records.pop();
    }
}
