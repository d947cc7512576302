//! Parts are spelled, with the logs of their tasks.

ghost use Rattle.std.specs.Prelude.{◌≡◌, is_some, map, Some, IsTrue, IfOk};
ghost use Rattle.task_part.specs.declared.part.Part.{Part};
ghost use Rattle.task_part.specs.Spelling.{logs_now, part_spelling, PartIsSpelled};
ghost use Rattle.job_state.specs.Held.{marked_inputs};
ghost use Rattle.job_state.specs.Inside.{logged_in};

use crate::attempt::Attempt;
use crate::tasks::{hand_out, share_part, spell_all, spell_part, spell_some};
use abs_codec::NoMemory;
use backedge_log::Logs;
use bytes::Bytes;
use job_graph::Graph;
use operator_state::CopyWork;
use operators::Operator;
use std::alloc::Global;

/// The records that are logged for a channel.
fn logged<R: Drop>(logs: &Logs<R>, channel: u32) -> &[R]
    ensures { result.now ≡ logged_in logs.now channel }
{
    if (channel as usize) < logs.channels() {
        logs.records(channel)
    } else {
        &[]
    }
}

/// The logs of a task, each with its channel.
fn marked_logs<'a, R: Drop>(
    alloc: Global,
    logs: &'a Logs<R>,
    graph: &Graph,
    task: u32,
) -> Result<Vec<(u32, &'a [R])>, NoMemory>
    ensures { IfOk result (λ marked. logs_now marked.items
        ≡ map (λ number. (number, logged_in logs.now number)) (marked_inputs graph.now task)) }
{
    let mut marked = Vec::new(alloc);
    for &number in graph.inputs(task) {
        if graph.is_marked(number) {
            marked.push((number, logged(logs, number)))?;
        }
    }
    Ok(marked)
}

impl<O: Operator> Attempt<O> {
    ghost use Rattle.job_state.specs.Held.{copy_at, logs_of, with_logs};

    /// Hands out the work on at most so many of the next entries of an operator's copy, to be done
    /// by anyone while nothing is held, where that is enough to be worth it, and none is handed
    /// out. `spell_some` takes what comes of it.
    pub fn hand_out(&mut self, task: u32, most: usize) -> Option<CopyWork<O::Key, O::State>>
        ensures { self.new ≡ self.old }
    {
        hand_out(&mut self.tasks, task, most)
    }

    /// Takes what was spelled of a task's copy elsewhere, or spells at most so many entries of it,
    /// or where all are spelled merges at most so many of its later writes, and answers whether
    /// there was such work.
    pub fn spell_some(&mut self, task: u32, most: usize) -> Result<bool, NoMemory>
        ensures { self.new ≡ self.old }
    {
        spell_some(&mut self.tasks, task, most)
    }

    /// Spells all that is left of a task's copy, and merges all of its later writes.
    pub fn spell_all(&mut self, task: u32) -> Result<(), NoMemory>
        ensures { self.new ≡ self.old }
    {
        spell_all(&mut self.tasks, task)
    }

    /// The spelling of the part that a task's copy is with the task's logs. What is left of the
    /// copy is spelled first. Others may keep these bytes.
    pub fn part(&mut self, graph: &Graph, task: u32) -> Result<Bytes, NoMemory>
        requires { IsTrue (is_some (copy_at self.old task)) }
        ensures spelled { IfOk result (λ bytes. (p : Part O.Record O.Key O.State)
            → copy_at self.old task ≡ Some p
            → PartIsSpelled O.Record.HasSpelling O.Key.cmp O.Key.HasSpelling O.State.HasSpelling
            (with_logs (logs_of graph.now self.old task) p)
            × (bytes ≡ part_spelling O.Record.spelling O.Key.spelling O.State.spelling
            (with_logs (logs_of graph.now self.old task) p))) }
        ensures same { self.new ≡ self.old }
    {
        let logs = marked_logs(self.alloc, &self.logs, graph, task)?;
        spell_part(&mut self.tasks, task, &logs)?;
        share_part(&mut self.tasks, task, self.alloc)
    }
}
