//! Records that are sent, taken and logged.

ghost use Rattle.std.specs.Prelude.{◌≡◌, ◌<◌, ◌≤◌, ◌+◌, ◌^◌, ℕ, List, length, slice_get, Some, Err, IfSome, OnOk, OnErr};
ghost use Rattle.std.specs.Option.{option_copied};
ghost use Rattle.channels.specs.declared.item.Item.TheVariants as Item;
ghost use Rattle.keyed_state.specs.declared.comparing.SetFault.TheVariants as SetFault;

use crate::attempt::Attempt;
use crate::gates::is_logged;
use crate::logs::{drop_last, log_copy, log_taken, reserve_log};
use crate::ready::make_ready;
use crate::sending::{
    before_barrier, first, pass_on, release_all, reserve_deliveries, send_record, skip, take_head,
};
use crate::taking::pass_on_all;
use crate::tasks::{advance, keep, keep_all};
use abs_codec::NoMemory;
use channels::Item;
use deliveries::{Fanned, Sent, fixed_target};
use job_graph::Graph;
use keyed_state::{Seen, SetFault};
use operators::Operator;

impl<O: Operator> Attempt<O> {
    ghost use Rattle.job_state.specs.declared.holding.Holding.TheVariants as Holding;
    ghost use Rattle.job_state.specs.Sending.{items_at, without_head, AreLanes, GoesInto};
    ghost use Rattle.job_state.specs.Held.{Held, gate_at, Reads, Operates, record_logged};
    ghost use Rattle.job_state.specs.AtOnce.{HaveExpected, without_first};
    ghost use Rattle.alignment.specs.Table.{is_logged};
    ghost use Rattle.deliveries.specs.Deliveries.{sent_in, AreFanned};
    ghost use Rattle.channels.specs.Items.{leading_records};
    ghost use Rattle.job_state.specs.Batch.{Turn, StandFirst, OperatesEach, AreLastStates, rows_of, sent_by};
    ghost use Rattle.std.specs.List.Sorted.{IsStrictlySortedBy};
    ghost use Rattle.std.specs.Map.{keys_of};

    /// The one channel that each record goes into which a task sends on its first port, if there is
    /// such one.
    pub fn fixed_target(graph: &Graph, task: u32) -> Option<u32>
        ensures { IfSome result (λ number. (row : O.Record)
            → GoesInto O.meaning graph.now task number row) }
    {
        fixed_target::<O>(graph, task, 0)
    }

    /// A source, which holds this offset, sends its next record. The channel that it goes into may
    /// be known.
    pub fn read(
        &mut self,
        graph: &Graph,
        task: u32,
        offset: u64,
        row: O::Record,
        known: Option<u32>,
    ) -> Result<(), NoMemory>
        requires holds { slice_get self.old.tasks task ≡ Some (Holding.Source offset) }
        requires in_range { offset + 1 < 2 ^ 64 }
        requires channels { length self.old.channels ≡ length graph.now.channels }
        requires known { IfSome known (λ number. GoesInto O.meaning graph.now task number row) }
        ensures ok { OnOk result (Reads O.meaning graph.now task offset row self.old self.new) }
        ensures err { OnErr result (self.new ≡ self.old) }
    {
        send_record::<O>(self.alloc, &mut self.channels, graph, task, row, known)?;
        advance(&mut self.tasks, task, offset + 1);
        Ok(())
    }

    /// An operator takes the record at the head of an input, which is this channel, keeps the state
    /// under the key, if there is one, and sends. The record is logged where the task's gate logs
    /// the input.
    pub fn operate(
        &mut self,
        graph: &Graph,
        task: u32,
        input: u32,
        channel: u32,
        key: Option<O::Key>,
        state: O::State,
        sent: Vec<(u32, O::Record)>,
    ) -> Result<(), NoMemory>
        requires holds { (entries : List (O.Key × O.State))
            × (slice_get self.old.tasks task ≡ Some (Holding.Operator entries)) }
        requires within { input < length (gate_at self.old task).inputs }
        requires logs { channel < length self.old.logs }
        requires taken { (row : O.Record) × (slice_get (items_at self.old.channels channel) 0
            ≡ Some (Item.Record row)) }
        requires channels { length self.old.channels ≡ length graph.now.channels }
        ensures ok { OnOk result ((row : O.Record)
            → slice_get (items_at self.old.channels channel) 0 ≡ Some (Item.Record row)
            → Operates O.meaning O.Key.cmp graph.now task input channel row key state sent.items
            self.old self.new) }
        ensures err { OnErr result (self.new ≡ self.old) }
    {
        let logged = is_logged(&self.gates, task, input);
        reserve_log(&mut self.logs, channel, logged, 1)?;
        let puts = reserve_deliveries::<O>(self.alloc, &mut self.channels, graph, task, sent)?;
        let Ok(()) = keep::<O>(&mut self.tasks, task, key, state) else {
            release_all(&mut self.channels);
            return Err(NoMemory);
        };
        let taken = pass_on(&mut self.channels, channel, puts);
        log_taken(&mut self.logs, channel, logged, taken);
        Ok(())
    }

    /// An operator takes the first records of an input, which is this channel, keeps the last state
    /// of each key, and sends what all of them send: as it would one after another. The records are
    /// logged where the task's gate logs the input. Nothing changes where memory is refused, or
    /// where a key has another state than the one that is expected, if any are. What is left of the
    /// states, and of what is sent, is to be let go. The lanes of what is sent may be known, and it
    /// may be put with its channels already.
    pub fn operate_some(
        &mut self,
        graph: &Graph,
        task: u32,
        input: u32,
        channel: u32,
        count: usize,
        states: &mut Vec<(O::Key, O::State)>,
        expected: Option<&[Seen<O::State>]>,
        sent: &mut Sent<O::Record>,
        lanes: &[u64],
        fanned: &mut Option<Fanned<O::Record>>,
    ) -> Result<(), SetFault>
        ghost turns: { List (Turn O.Record O.Key O.State) }
        requires holds { (entries : List (O.Key × O.State))
            × (slice_get self.old.tasks task ≡ Some (Holding.Operator entries)) }
        requires within { input < length (gate_at self.old task).inputs }
        requires logs { channel < length self.old.logs }
        requires channels { length self.old.channels ≡ length graph.now.channels }
        requires counted { count ≡ length turns }
        requires first { StandFirst channel (rows_of turns) self.old }
        // Each key stands once.
        requires rising { IsStrictlySortedBy O.Key.cmp (keys_of states.old.items) }
        requires states { AreLastStates O.meaning.same_key turns states.old.items }
        requires sent { sent_in sent.old ≡ sent_by turns }
        requires lanes { AreLanes O.meaning (sent_in sent.old) lanes.now }
        requires fanned { AreFanned (sent_in sent.old) fanned.old }
        ensures ok { OnOk result (OperatesEach O.meaning O.Key.cmp graph.now task input channel
            turns self.old self.new) }
        ensures expected { 0 < count → (entries : List (O.Key × O.State))
            → slice_get self.old.tasks task ≡ Some (Holding.Operator entries)
            → OnOk result (HaveExpected O.Key.cmp entries (keys_of states.old.items)
            (option_copied expected.entry)) }
        // What is told of the states is so.
        ensures changed { (entries : List (O.Key × O.State))
            → slice_get self.old.tasks task ≡ Some (Holding.Operator entries)
            → result ≡ Err SetFault.Changed → ¬ HaveExpected O.Key.cmp entries
            (keys_of states.old.items) (option_copied expected.entry) }
        ensures err { OnErr result (self.new ≡ self.old) }
    {
        if count == 0 {
            return Ok(());
        }
        let logged = is_logged(&self.gates, task, input);
        reserve_log(&mut self.logs, channel, logged, count)?;
        let ready = make_ready::<O>(
            self.alloc,
            &mut self.channels,
            graph,
            task,
            sent,
            lanes,
            fanned,
        )?;
        if let Err(fault) = keep_all(self.alloc, &mut self.tasks, task, states, expected) {
            release_all(&mut self.channels);
            return Err(fault);
        }
        pass_on_all(
            &mut self.channels,
            &mut self.logs,
            channel,
            logged,
            count,
            ready,
        );
        Ok(())
    }

    /// Logs a copy of the record at the head of an input, which is this channel, where the task's
    /// gate logs the input.
    #[inline(always)]
    pub fn log_head(&mut self, task: u32, input: u32, channel: u32) -> Result<(), NoMemory>
        requires within { input < length (gate_at self.old task).inputs }
        requires logs { channel < length self.old.logs }
        ensures ok { OnOk result ((row : O.Record)
            → slice_get (items_at self.old.channels channel) 0 ≡ Some (Item.Record row)
            → self.new ≡ record_logged task input channel row self.old) }
        ensures err { OnErr result (self.new ≡ self.old) }
    {
        if is_logged(&self.gates, task, input) {
            if let Some(Item::Record(row)) = first(&self.channels, channel) {
                log_copy(&mut self.logs, channel, row)?;
            }
        }
        Ok(())
    }

    /// The record that `log_head` logged is not logged. It takes no memory.
    pub fn unlog(&mut self, task: u32, input: u32, channel: u32)
        requires within { input < length (gate_at self.old task).inputs }
        requires logs { channel < length self.old.logs }
        ensures { (before : Held O.Record O.Key O.State) (row : O.Record)
            → self.old ≡ record_logged task input channel row before → self.new ≡ before }
    {
        if is_logged(&self.gates, task, input) {
            drop_last(&mut self.logs, channel);
        }
    }

    /// Whether a record that a task takes from an input is to be logged.
    pub fn logs_input(&self, task: u32, input: u32) -> bool
        requires { input < length (gate_at self.now task).inputs }
        ensures { result ≡ is_logged (gate_at self.now task) input }
    {
        is_logged(&self.gates, task, input)
    }

    /// Takes away so many of the records that stand first in a channel. It takes no memory.
    pub fn take_some(&mut self, channel: u32, count: usize)
        requires { count ≤ length (leading_records (items_at self.old.channels channel)) }
        ensures { self.new
            ≡ record self.old { channels = without_first count channel self.old.channels } }
    {
        skip(&mut self.channels, channel, count);
    }

    /// Takes the first item of a channel. It takes no memory.
    #[inline(always)]
    pub fn take(&mut self, channel: u32)
        ensures { self.new ≡ record self.old { channels = without_head channel self.old.channels } }
    {
        if before_barrier(&self.channels, channel) == 0 {
            let _ = take_head(&mut self.channels, channel);
        } else {
            skip(&mut self.channels, channel, 1);
        }
    }
}
