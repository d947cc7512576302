//! What a task sends on ports that have several channels, made for these beforehand.

ghost use Rattle.std.specs.Prelude.{◌≡◌, ◌++◌, map, OnOk, IfOk};

use crate::puts::open_port;
use abs_codec::{Codec, NoMemory};
use job_graph::Graph;
use operators::Operator;
use std::alloc::Global;

/// The channels of a task's first two ports.
#[derive(Drop)]
pub struct Fans {
    pub first: Vec<u32>,
    pub second: Vec<u32>,
}

/// What a task sends, once for each channel of its port, with that channel in place of the port.
#[derive(Drop)]
pub struct Fanned<R> {
    pub fans: Fans,
    pub rows: Vec<(u32, R)>,
}

/// A copy of these numbers.
fn copy_of(alloc: Global, numbers: &[u32]) -> Result<Vec<u32>, NoMemory>
    ensures { IfOk result (λ copy. copy.items ≡ numbers.now) }
{
    let mut copy = Vec::with_capacity(alloc, numbers.len())?;
    copy.extend_from_slice(numbers)?;
    Ok(copy)
}

/// Copies of a record are put last, one with each of these channels.
fn put_copies<R: Codec>(numbers: &[u32], row: &R, rows: &mut Vec<(u32, R)>) -> Result<(), NoMemory>
    ensures { OnOk result (rows.new.items ≡ rows.old.items ++ map (λ n. (n, row.now)) numbers.now) }
{
    for number in numbers {
        rows.push((*number, row.copied()?))?;
    }
    Ok(())
}

impl Fans {
    ghost use Rattle.std.specs.Prelude.{◌≡◌, ◌↔◌, IsTrue, IfOk, IfSome};
    ghost use Rattle.deliveries.specs.Deliveries.{fanned_by, numbers_at};
    ghost use Rattle.job_graph.specs.Expanded.{outlets_of};

    /// The channels of a task's first two ports, where each of them takes whatever the task sends
    /// there, and a port has several; `None` where it is otherwise.
    pub fn of<O: Operator>(
        alloc: Global,
        graph: &Graph,
        task: u32,
    ) -> Result<Option<Fans>, NoMemory>
        ensures first { IfOk result (λ found. IfSome found
            (λ fans. fans.first.items ≡ outlets_of graph.now task 0)) }
        ensures second { IfOk result (λ found. IfSome found
            (λ fans. fans.second.items ≡ outlets_of graph.now task 1)) }
    {
        let Some(first) = open_port::<O>(graph, task, 0) else {
            return Ok(None);
        };
        let Some(second) = open_port::<O>(graph, task, 1) else {
            return Ok(None);
        };
        if first.len() < 2 && second.len() < 2 {
            return Ok(None);
        }
        Ok(Some(Fans {
            first: copy_of(alloc, first)?,
            second: copy_of(alloc, second)?,
        }))
    }

    /// Whether these are the channels of the two ports.
    pub fn are(&self, first: &[u32], second: &[u32]) -> bool
        ensures { IsTrue result
            ↔ (self.now.first.items ≡ first.now) × (self.now.second.items ≡ second.now) }
    {
        self.first.as_slice() == first && self.second.as_slice() == second
    }

    /// The channels of a port.
    fn numbers(&self, port: u32) -> &[u32]
        ensures { result.now ≡ numbers_at self.now.first.items self.now.second.items port }
    {
        match port {
            0 => &self.first,
            1 => &self.second,
            _ => &[],
        }
    }

    /// Copies of what a task sends on the two ports, once for each channel of its port.
    pub fn fanned<R: Codec>(self, alloc: Global, sent: &[(u32, R)]) -> Result<Fanned<R>, NoMemory>
        ensures fans { IfOk result (λ made. made.fans ≡ self) }
        ensures rows { IfOk result (λ made. made.rows.items
            ≡ fanned_by self.first.items self.second.items sent.now) }
    {
        let mut rows = Vec::with_capacity(alloc, sent.len())?;
        for each in sent {
            put_copies(self.numbers(each.0), &each.1, &mut rows)?;
        }
        Ok(Fanned { fans: self, rows })
    }
}
