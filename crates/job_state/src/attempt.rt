//! The attempt.

ghost use Rattle.std.specs.Prelude.{◌≡◌, ◌<◌, ◌≤◌, ◌+◌, ◌^◌, ◌++◌, ◌↔◌, ℕ, List, false, length, take, drop, option_map, slice_get, is_some, Some, None, IfOk, IfSome, IfNone, IsTrue};
ghost use Rattle.std.specs.Option.{option_copied};
ghost use Rattle.abs_codec.specs.Entries.{value_at};
ghost use Rattle.alignment.specs.Inputs as gates;
ghost use Rattle.alignment.specs.Table.{effect_of, is_blocked};
ghost use Rattle.alignment.specs.declared.input.Phase.TheVariants.{AtRest};
ghost use Rattle.channels.specs.Items.{item_copied, leading_records};
ghost use Rattle.coordinator.specs.Coordinator.{has_acked, IsReady, ack_refusal, complete_refusal};

use crate::gates::fresh_gates;
use crate::holding::Holding;
use crate::logs::{open_logs, reopen};
use crate::openings::opened_channels;
use crate::sending::{before_barrier, first, record_at, records_from, starts_with};
use crate::task::Task;
use crate::tasks::{clear, forget_oldest, fresh_tasks};
use abs_codec::{Items, NoMemory};
use alignment::{Effect, Gate, Phase};
use backedge_log::Logs;
use channels::{Channel, Item};
use commit_sink::Sink;
use coordinator::Coordinator;
use job_graph::Graph;
use keyed_state::LentStates;
use operators::Operator;
use std::alloc::Global;
use std::marker::Model;

/// What a running job holds in memory.
#[derive(Drop)]
pub struct Attempt<O: Operator> {
    pub(crate) alloc: Global,
    pub(crate) tasks: Vec<Task<O::Record, O::Key, O::State>>,
    pub(crate) channels: Vec<Channel<O::Record>>,
    pub(crate) gates: Vec<Gate>,
    /// A channel's log is open as long as the pending checkpoint's barrier has not come from it.
    pub(crate) logs: Logs<O::Record>,
    pub(crate) coordinator: Coordinator,
}

impl<O: Operator> Model for Attempt<O> {
    ghost use Rattle.job_state.specs.Held.{Held};
    ghost use Rattle.job_state.specs.Inside.{holdings_of, copies_of, came_of, records_of};
    ghost use Rattle.job_state.specs.Sending.{contents_items};

    ghost Value = { Held O.Record O.Key O.State };

    ghost view = { λ a. record {
      tasks = holdings_of a.tasks.items;
      channels = contents_items a.channels.items;
      gates = a.gates.items;
      came = came_of a.logs;
      logs = records_of a.logs;
      copies = copies_of a.tasks.items;
      coordination = a.coordinator;
    } };
}

impl<O: Operator> Attempt<O> {
    ghost use Rattle.commit_sink.specs.Sink.{Sinking};
    ghost use Rattle.job_state.specs.declared.holding.Holding.TheVariants as Holding;
    ghost use Rattle.job_state.specs.Batch.{StandFirst};
    ghost use Rattle.job_state.specs.Sending.{items_at};
    ghost use Rattle.job_state.specs.Held.{copy_at, gate_at, came_at, begun, oldest_forgotten, with_started, with_acknowledged, with_completed};

    /// An attempt that begins: these tasks, these records in the channels, and no checkpoint
    /// pending. Records that are for no channel are dropped.
    pub fn new(
        alloc: Global,
        graph: &Graph,
        tasks: Vec<Holding<O::Key, O::State>>,
        openings: Vec<(u32, Items<O::Record>)>,
        last_complete: Option<u64>,
    ) -> Result<Self, NoMemory>
        requires { length tasks.items < 2 ^ 32 }
        ensures { IfOk result (λ a. a ≡ begun graph.now tasks.items openings.items last_complete) }
    {
        let count = tasks.len() as u32;
        let channels = opened_channels(alloc, graph.channels(), openings)?;
        let gates = fresh_gates(alloc, graph, count)?;
        let logs = open_logs(alloc, graph.channels())?;
        let tasks = fresh_tasks(alloc, tasks)?;
        let coordinator = Coordinator::new(alloc, count)?.with_last_complete(last_complete);
        Ok(Attempt {
            alloc,
            tasks,
            channels,
            gates,
            logs,
            coordinator,
        })
    }

    /// The offset that a task holds, if it holds one.
    pub fn offset(&self, task: u32) -> Option<u64>
        ensures some { IfSome result (λ offset. slice_get self.now.tasks task
            ≡ Some (Holding.Source offset)) }
        ensures none { IfNone result ((offset : ℕ)
            → slice_get self.now.tasks task ≡ Some (Holding.Source offset) → ⊥) }
    {
        self.tasks.get(task as usize)?.offset()
    }

    /// The sink that a task holds, if it holds one.
    pub fn sink(&self, task: u32) -> Option<&Sink>
        ensures some { IfSome result (λ sink. slice_get self.now.tasks task
            ≡ Some (Holding.Sink sink.now)) }
        ensures none { IfNone result ((sink : Sinking)
            → slice_get self.now.tasks task ≡ Some (Holding.Sink sink) → ⊥) }
    {
        self.tasks.get(task as usize)?.sink()
    }

    /// The state that an operator has at a key.
    pub fn state(&self, task: u32, key: &O::Key) -> Option<&O::State>
        ensures { (entries : List (O.Key × O.State))
            → slice_get self.now.tasks task ≡ Some (Holding.Operator entries)
            → option_copied result ≡ value_at O.Key.cmp entries key.now }
    {
        self.tasks.get(task as usize)?.state(key)
    }

    /// An operator's states, for a reader, who may keep them however they are written here. `None`
    /// where they are not ready for that. It takes no memory.
    pub fn lend(&self, task: u32) -> Option<LentStates<O::Key, O::State>>
        ensures { IfSome result (λ lent. slice_get self.now.tasks task
            ≡ Some (Holding.Operator lent)) }
    {
        self.tasks.get(task as usize)?.lend()
    }

    /// The item that stands first in a channel.
    pub fn head(&self, channel: u32) -> Option<Item<&O::Record>>
        ensures { option_map item_copied result ≡ slice_get (items_at self.now.channels channel) 0 }
    {
        first(&self.channels, channel)
    }

    /// How many records stand in a channel before the first barrier, or the end.
    pub fn before_barrier(&self, channel: u32) -> usize
        ensures { result ≡ length (leading_records (items_at self.now.channels channel)) }
    {
        before_barrier(&self.channels, channel)
    }

    /// The record at a place of a channel, if it stands before the first barrier.
    pub fn record(&self, channel: u32, index: usize) -> Option<&O::Record>
        ensures { option_copied result
            ≡ slice_get (leading_records (items_at self.now.channels channel)) index }
    {
        record_at(&self.channels, channel, index)
    }

    /// So many of the records of a channel that stand before the first barrier, from this place on,
    /// in two pieces.
    #[inline(always)]
    pub fn records(&self, channel: u32, from: usize, count: usize) -> (&[O::Record], &[O::Record])
        requires { from + count ≤ length (leading_records (items_at self.now.channels channel)) }
        ensures { result.0.now ++ result.1.now
            ≡ take count (drop from (leading_records (items_at self.now.channels channel))) }
    {
        records_from(&self.channels, channel, from, count)
    }

    /// Whether these records stand first in a channel, with no barrier before one of them.
    #[inline(always)]
    pub fn has_first(&self, channel: u32, rows: &[O::Record]) -> bool
        ensures { IsTrue result ↔ StandFirst channel rows.now self.now }
    {
        starts_with(&self.channels, channel, rows)
    }

    /// Whether a task's input is blocked: its barrier has come, and the task waits for others.
    pub fn is_blocked(&self, task: u32, input: u32) -> bool
        requires { input < length (gate_at self.now task).inputs }
        ensures { result ≡ is_blocked (gate_at self.now task) input }
    {
        match self.gates.get(task as usize) {
            Some(gate) => !gate.may_take(input),
            None => false,
        }
    }

    /// What the barrier of a task's input would bring about.
    pub fn effect(&self, task: u32, input: u32) -> Effect
        requires within { input < length (gate_at self.now task).inputs }
        requires awaited { (gates.input_at (gate_at self.now task).inputs input).came ≡ false }
        ensures { result ≡ effect_of (gate_at self.now task) input }
    {
        self.gates[task as usize].effect_at(input)
    }

    /// Whether a task's gate is at rest: it logs nothing, and waits for no barrier.
    pub fn is_closed(&self, task: u32) -> bool
        ensures { IsTrue result ↔ ((gate_at self.now task).phase ≡ AtRest) }
    {
        match self.gates.get(task as usize) {
            Some(gate) => gate.phase() == Phase::AtRest,
            None => true,
        }
    }

    /// Whether the pending checkpoint's barrier was taken from a channel.
    pub fn came(&self, channel: u32) -> bool
        ensures { result ≡ came_at self.now channel }
    {
        (channel as usize) < self.logs.channels() && !self.logs.is_open(channel)
    }

    /// Whether a task has copied for the pending checkpoint.
    pub fn has_copied(&self, task: u32) -> bool
        ensures { result ≡ is_some (copy_at self.now task) }
    {
        match self.tasks.get(task as usize) {
            Some(task) => task.has_copied(),
            None => false,
        }
    }

    /// The number of the pending checkpoint.
    pub fn pending(&self) -> Option<u64>
        ensures { result ≡ self.now.coordination.pending }
    {
        self.coordinator.pending()
    }

    /// The last number that is complete.
    pub fn last_complete(&self) -> Option<u64>
        ensures { result ≡ self.now.coordination.last_complete }
    {
        self.coordinator.last_complete()
    }

    /// Whether a checkpoint is pending and the task has acknowledged it.
    pub fn has_acked(&self, task: u32) -> bool
        requires { task < length self.now.coordination.acked }
        ensures { result ≡ has_acked self.now.coordination task }
    {
        self.coordinator.has_acked(task)
    }

    /// Whether a checkpoint is pending and every task has acknowledged it.
    pub fn ready(&self) -> bool
        ensures { IsTrue result ↔ IsReady self.now.coordination }
    {
        self.coordinator.ready()
    }

    /// A sink's oldest pre-committed transaction is committed, and forgotten here. It takes no
    /// memory.
    pub fn forget_oldest(&mut self, task: u32)
        requires { task < length self.old.tasks }
        ensures { (sink : Sinking) → slice_get self.old.tasks task ≡ Some (Holding.Sink sink)
            → self.new ≡ oldest_forgotten task sink self.old }
    {
        forget_oldest(&mut self.tasks, task);
    }

    /// A checkpoint is pending from now on, for which no task has copied and no barrier has come.
    /// It takes no memory.
    pub fn start(&mut self, checkpoint: u64)
        requires { self.old.coordination.pending ≡ None }
        ensures { self.new ≡ with_started checkpoint self.old }
    {
        let _ = self.coordinator.start(checkpoint);
        clear(&mut self.tasks);
        reopen(&mut self.logs);
    }

    /// A task acknowledges the pending checkpoint. It takes no memory.
    pub fn acknowledge(&mut self, checkpoint: u64, task: u32)
        requires task { task < length self.old.coordination.acked }
        requires may { ack_refusal self.old.coordination checkpoint task ≡ None }
        ensures { self.new ≡ with_acknowledged task self.old }
    {
        let _ = self.coordinator.ack(checkpoint, task);
    }

    /// The pending checkpoint is complete, and the copies and logs are dropped. It takes no memory.
    pub fn complete(&mut self, checkpoint: u64)
        requires { complete_refusal self.old.coordination checkpoint ≡ None }
        ensures { self.new ≡ with_completed checkpoint self.old }
    {
        let _ = self.coordinator.complete(checkpoint);
        clear(&mut self.tasks);
        reopen(&mut self.logs);
    }
}
