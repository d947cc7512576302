//! Expanded graphs.

ghost use Rattle.std.specs.Prelude.{◌≡◌, ◌<◌, ◌^◌, map, length, count_by, IfOk};
ghost use Rattle.job_graph.specs.Expanded.{is_sink};

use crate::links::{Links, table};
use crate::role::Role;
use job_channels::Channel;
use std::alloc::{AllocError, Global};
use std::marker::Model;

/// The tasks of a job, the channels between them, and an order in which records can reach the
/// tasks. All go by numbers from 0.
#[derive(Drop)]
pub struct Graph {
    roles: Vec<Role>,
    channels: Vec<Channel>,
    order: Vec<u32>,
    spelling: Vec<u8>,
    links: Vec<Links>,
    /// How many sink subtasks there are.
    sinks: u32,
}

impl Model for Graph {
    ghost use Rattle.std.specs.Prelude.{◌≡◌, map, length};
    ghost use Rattle.job_graph.specs.Expanded.{Expanded, IsExpanded};
    ghost use Rattle.job_channels.specs.Channel.{channel_view};
    ghost use Rattle.job_graph.specs.Tables.{IsTable};

    ghost Value = { Expanded };

    ghost use Rattle.job_graph.specs.Inside.{expanded_of, IsLinked};

    ghost view = { expanded_of };

    ghost invariant = { IsLinked };
}

fn sinks_of(roles: &[Role]) -> u32
    requires { length roles.now < 2 ^ 32 }
    ensures { result ≡ count_by is_sink roles.now }
{
    roles.iter().filter(|role| role.is_sink()).count() as u32
}

impl Graph {
    ghost use Rattle.std.specs.Prelude.{◌≡◌, ◌≤◌, IfOk, IfSome, IfNone, length, count_by, slice_get, option_map, map};
    ghost use Rattle.std.specs.List.{find, range_with_len};
    ghost use Rattle.job_graph.specs.declared.role.Role.TheVariants as Role;
    ghost use Rattle.job_channels.specs.Channel.{channel_view};
    ghost use Rattle.job_graph.specs.Expanded.{IsExpanded, IsChannel, inputs_of, outputs_of, outlets_of, targets_of, meets, is_marked, takes, is_source, is_operator, is_sink, is_subtask_at};
    ghost use Rattle.job_graph.specs.Runs.{AreRuns};
    ghost use Rattle.job_graph.specs.Tables.{AreLinks};

    /// The graph of these tasks and channels.
    pub(crate) fn new(
        alloc: Global,
        roles: Vec<Role>,
        channels: Vec<Channel>,
        order: Vec<u32>,
        spelling: Vec<u8>,
    ) -> Result<Graph, AllocError>
        requires { IsExpanded (record {
          tasks = roles.items;
          channels = map channel_view channels.items;
          order = order.items;
          spelling = spelling.items;
        }) }
        ensures { IfOk result (λ graph. graph
            ≡ record {
              tasks = roles.items;
              channels = map channel_view channels.items;
              order = order.items;
              spelling = spelling.items;
            }) }
    {
        let links = table(alloc, &channels, roles.len() as u32)?;
        let sinks = sinks_of(&roles);
        Ok(Graph {
            roles,
            channels,
            order,
            spelling,
            links,
            sinks,
        })
    }

    /// How many tasks there are.
    pub fn tasks(&self) -> u32
        ensures count { result ≡ length self.now.tasks }
        ensures expanded { IsExpanded self.now }
    {
        self.roles.len() as u32
    }

    /// How many channels there are.
    pub fn channels(&self) -> u32
        ensures { result ≡ length self.now.channels }
    {
        self.channels.len() as u32
    }

    /// What a task is; `None` if there is no such task.
    pub fn role(&self, task: u32) -> Option<Role>
        ensures { result ≡ slice_get self.now.tasks task }
    {
        self.roles.get(task as usize).copied()
    }

    /// A channel; `None` if there is none of this number.
    pub fn channel(&self, number: u32) -> Option<Channel>
        ensures value { option_map channel_view result ≡ slice_get self.now.channels number }
        ensures joined { IfSome result (λ channel. IsChannel self.now.tasks
            (channel_view channel)) }
    {
        self.stored(number)
    }

    fn stored(&self, number: u32) -> Option<Channel>
        ensures value { option_map channel_view result ≡ slice_get self.now.channels number }
        ensures expanded { IsExpanded self.now }
    {
        self.channels.get(number as usize).copied()
    }

    /// Whether the channel is there and belongs to a back-edge.
    pub fn is_marked(&self, number: u32) -> bool
        ensures { result ≡ meets is_marked self.now.channels number }
    {
        self.channels
            .get(number as usize)
            .is_some_and(|channel| channel.marked)
    }

    /// The tasks, each behind the senders of its unmarked inputs.
    pub fn order(&self) -> &[u32]
        ensures { result.now ≡ self.now.order }
    {
        &self.order
    }

    fn links(&self, task: u32) -> Option<&Links>
        ensures some { IfSome result (λ links. AreLinks self.now.channels task links.now) }
        ensures none { IfNone result (length self.now.tasks ≤ task) }
        ensures expanded { IsExpanded self.now }
    {
        self.links.get(task as usize)
    }

    /// The channels that lead into a task, in rising number; its inputs are counted in this list.
    pub fn inputs(&self, task: u32) -> &[u32]
        ensures { result.now ≡ inputs_of self.now task }
    {
        match self.links(task) {
            Some(links) => &links.inputs,
            None => &[],
        }
    }

    /// The channels that a task sends on, in rising number.
    pub fn outputs(&self, task: u32) -> &[u32]
        ensures { result.now ≡ outputs_of self.now task }
    {
        match self.links(task) {
            Some(links) => &links.outputs,
            None => &[],
        }
    }

    /// The channels that a task sends on from a port, in rising number.
    pub fn outlets(&self, task: u32, port: u32) -> &[u32]
        ensures { result.now ≡ outlets_of self.now task port }
    {
        let Some(links) = self.links(task) else {
            return &[];
        };
        match port {
            0 => &links.first,
            1 => &links.second,
            _ => &[],
        }
    }

    /// How many channels of a port, from each place among them on, take the lanes in turn.
    pub fn runs(&self, task: u32, port: u32) -> &[u32]
        ensures { AreRuns self.now.channels (outlets_of self.now task port) result.now }
    {
        let Some(links) = self.links(task) else {
            return &[];
        };
        match port {
            0 => &links.first_runs,
            1 => &links.second_runs,
            _ => &[],
        }
    }

    /// Whether the channel is there and takes records of this lane.
    pub fn takes(&self, number: u32, lane: u64) -> bool
        ensures { result ≡ meets (takes lane) self.now.channels number }
    {
        match self.channel(number) {
            Some(channel) => channel.route.takes(lane),
            None => false,
        }
    }

    /// The channels that a record of this lane goes into when a task sends it on a port, in rising
    /// number.
    pub fn targets(
        &self,
        alloc: Global,
        task: u32,
        port: u32,
        lane: u64,
    ) -> Result<Vec<u32>, AllocError>
        ensures { IfOk result (λ v. v.items ≡ targets_of self.now task port lane) }
    {
        self.outlets(task, port)
            .iter()
            .copied()
            .filter(|number| self.takes(*number, lane))
            .collect(alloc)
    }

    /// How many source tasks there are; they read the partitions from 0 on.
    pub fn sources(&self) -> u32
        ensures { result ≡ count_by is_source self.now.tasks }
    {
        self.roles.iter().filter(|role| role.is_source()).count() as u32
    }

    /// How many operator tasks there are.
    pub fn operators(&self) -> u32
        ensures { result ≡ count_by is_operator self.now.tasks }
    {
        self.roles.iter().filter(|role| role.is_operator()).count() as u32
    }

    /// How many sink subtasks there are.
    pub fn sinks(&self) -> u32
        ensures { result ≡ count_by is_sink self.now.tasks }
    {
        self.sinks
    }

    /// The task that is a sink subtask; `None` if there is no such subtask.
    pub fn sink_task(&self, subtask: u32) -> Option<u32>
        ensures found { IfSome result (λ task. slice_get self.now.tasks task
            ≡ Some (Role.Sink subtask)) }
        ensures none { IfNone result (count_by is_sink self.now.tasks ≤ subtask) }
    {
        self.first_subtask(subtask)
    }

    fn first_subtask(&self, subtask: u32) -> Option<u32>
        ensures first { result ≡ find (is_subtask_at self.now.tasks subtask)
            (range_with_len 0 (length self.now.tasks)) }
        ensures expanded { IsExpanded self.now }
    {
        (0..self.tasks()).find(|task| self.is_subtask(*task, subtask))
    }

    fn is_subtask(&self, task: u32, subtask: u32) -> bool
        ensures { result ≡ is_subtask_at self.now.tasks subtask task }
    {
        self.roles
            .get(task as usize)
            .is_some_and(|role| role.is_subtask(subtask))
    }

    /// The job's vertices and edges as bytes.
    pub fn spelling(&self) -> &[u8]
        ensures { result.now ≡ self.now.spelling }
    {
        &self.spelling
    }
}
