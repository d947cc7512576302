//! Barriers that are taken, and copies.

ghost use Rattle.std.specs.Prelude.{◌≡◌, ◌≢◌, ◌<◌, List, false, length, slice_get, Some, None, OnOk, OnErr};
ghost use Rattle.alignment.specs.Inputs as gates;
ghost use Rattle.alignment.specs.Table.{IsFor};

use crate::attempt::Attempt;
use crate::gates::note_barrier;
use crate::logs::close;
use crate::sending::{pass_on, release_all, reserve_barriers, send_barriers, take_head};
use crate::tasks::{copy_names, copy_offset, copy_states};
use abs_codec::{Items, NoMemory};
use commit_sink::Sink;
use job_graph::Graph;
use operators::Operator;

impl<O: Operator> Attempt<O> {
    ghost use Rattle.job_state.specs.declared.holding.Holding.TheVariants as Holding;
    ghost use Rattle.job_state.specs.Sending.{items_at};
    ghost use Rattle.job_state.specs.Held.{gate_at, barrier_taken, CopiesSource, CopiesOperator, sink_copied};

    /// A task takes the barrier at the head of an input, which is this channel, and its gate notes
    /// it. It takes no memory.
    pub fn take_barrier(&mut self, task: u32, input: u32, channel: u32, checkpoint: u64)
        requires gates { task < length self.old.gates }
        requires within { input < length (gate_at self.old task).inputs }
        requires awaited { (gates.input_at (gate_at self.old task).inputs input).came ≡ false }
        requires number { IsFor (gate_at self.old task).phase checkpoint }
        requires came { channel < length self.old.came }
        ensures { self.new ≡ barrier_taken task input channel checkpoint self.old }
    {
        let _ = take_head(&mut self.channels, channel);
        note_barrier(&mut self.gates, task, input, checkpoint);
        close(&mut self.logs, channel);
    }

    /// A source, which holds this offset, copies it and sends the barrier.
    pub fn copy_source(
        &mut self,
        graph: &Graph,
        task: u32,
        offset: u64,
        checkpoint: u64,
    ) -> Result<(), NoMemory>
        requires holds { slice_get self.old.tasks task ≡ Some (Holding.Source offset) }
        requires copies { task < length self.old.copies }
        requires channels { length self.old.channels ≡ length graph.now.channels }
        ensures ok { OnOk result (CopiesSource graph.now task offset checkpoint self.old self.new) }
        ensures err { OnErr result (self.new ≡ self.old) }
    {
        send_barriers(self.alloc, &mut self.channels, graph, task, checkpoint)?;
        copy_offset(self.alloc, &mut self.tasks, task, offset);
        Ok(())
    }

    /// An operator takes the barrier at the head of an input, which is this channel, copies its
    /// map, and sends the barrier. No entry of the map is copied for it.
    pub fn copy_operator(
        &mut self,
        graph: &Graph,
        task: u32,
        input: u32,
        channel: u32,
        checkpoint: u64,
    ) -> Result<(), NoMemory>
        requires holds { (entries : List (O.Key × O.State))
            × (slice_get self.old.tasks task ≡ Some (Holding.Operator entries)) }
        requires gates { task < length self.old.gates }
        requires within { input < length (gate_at self.old task).inputs }
        requires awaited { (gates.input_at (gate_at self.old task).inputs input).came ≡ false }
        requires number { IsFor (gate_at self.old task).phase checkpoint }
        requires came { channel < length self.old.came }
        requires copies { task < length self.old.copies }
        requires channels { length self.old.channels ≡ length graph.now.channels }
        ensures ok { OnOk result (CopiesOperator graph.now task input channel checkpoint
            self.old self.new) }
        ensures err { OnErr result (self.new ≡ self.old) }
    {
        let puts = reserve_barriers(self.alloc, &mut self.channels, graph, task, checkpoint)?;
        let Ok(()) = copy_states(&mut self.tasks, task) else {
            release_all(&mut self.channels);
            return Err(NoMemory);
        };
        let _ = pass_on(&mut self.channels, channel, puts);
        note_barrier(&mut self.gates, task, input, checkpoint);
        close(&mut self.logs, channel);
        Ok(())
    }

    /// A sink takes the barrier at the head of an input, which is this channel, and copies the
    /// numbers of its transactions. It takes no memory.
    pub fn copy_sink(
        &mut self,
        task: u32,
        input: u32,
        channel: u32,
        checkpoint: u64,
        names: Items<u64>,
        sink: Sink,
    )
        requires holds { task < length self.old.tasks }
        requires gates { task < length self.old.gates }
        requires within { input < length (gate_at self.old task).inputs }
        requires awaited { (gates.input_at (gate_at self.old task).inputs input).came ≡ false }
        requires number { IsFor (gate_at self.old task).phase checkpoint }
        requires came { channel < length self.old.came }
        requires copies { task < length self.old.copies }
        ensures { self.new ≡ sink_copied task input channel checkpoint names sink self.old }
    {
        self.take_barrier(task, input, channel, checkpoint);
        copy_names(self.alloc, &mut self.tasks, task, sink, names);
    }
}
