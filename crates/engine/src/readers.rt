//! What can be asked of a job without changing it.

ghost use Rattle.std.specs.Prelude.{◌≡◌, ◌↔◌, IsTrue, MatchOption};
ghost use Rattle.engine_model.specs.Calls.{HasNext};
ghost use Rattle.engine.specs.Readers.{pending_in, came_in, HasHead};

use crate::calls::Engine;
use channels::Item;
use commit_sink::Transactions;
use job_graph::{Graph, Role};
use operators::Operator;
use snapshot_store::SnapshotStore;
use source_log::Partitions;

impl<O: Operator, S: SnapshotStore, X: Transactions, P: Partitions<Record = O::Record>> Engine<
    O,
    S,
    X,
    P,
> {
    /// The job's tasks and channels.
    pub fn graph(&self) -> &Graph
        ensures { result.now ≡ self.now.graph }
    {
        &self.graph
    }

    /// The number of the pending checkpoint, where the job runs and one is pending.
    pub fn pending(&self) -> Option<u64>
        ensures { result ≡ pending_in self.now.held }
    {
        match &self.attempt {
            Some(attempt) => attempt.pending(),
            None => None,
        }
    }

    /// Whether the pending checkpoint's barrier was taken from a channel.
    pub fn came(&self, channel: u32) -> bool
        ensures { result ≡ came_in self.now.held channel }
    {
        match &self.attempt {
            Some(attempt) => attempt.came(channel),
            None => false,
        }
    }

    /// Whether a source has a record left to send.
    pub fn has_next(&self, task: u32) -> bool
        ensures { IsTrue result ↔ MatchOption self.now.held ⊥
            (λ h. HasNext self.now.graph task h h self.now.partitions) }
    {
        let Some(attempt) = &self.attempt else {
            return false;
        };
        let Some(Role::Source(partition)) = self.graph.role(task) else {
            return false;
        };
        let Some(offset) = attempt.offset(task) else {
            return false;
        };
        match self.log.len(partition) {
            Ok(len) => offset < len,
            Err(_) => false,
        }
    }

    /// Whether a record stands first in a channel.
    pub fn has_head(&self, channel: u32) -> bool
        ensures { IsTrue result ↔ MatchOption self.now.held ⊥ (λ h. HasHead h channel) }
    {
        let Some(attempt) = &self.attempt else {
            return false;
        };
        match attempt.head(channel) {
            Some(Item::Record(_)) => true,
            Some(Item::Barrier(_)) => false,
            None => false,
        }
    }
}
