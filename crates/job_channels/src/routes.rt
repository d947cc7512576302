//! The channels of edges.

ghost use Rattle.std.specs.Prelude.{◌≡◌, ◌+◌, ◌<◌, ◌≤◌, ◌^◌, ◌++◌, ℕ, All, OnOk, IfOk, length, map, sum, slice_index};
ghost use Rattle.std.specs.List.{flat_map};
ghost use Rattle.job_channels.specs.Channel.{channel_view, route_view};
ghost use Rattle.job_channels.specs.Edges.{channel_on, route_to, forward_channels, channels_to, crossed_channels, edge_channels, first_task};

use crate::channel::{Channel, Route};
use job_spec::{EdgeRoute, EdgeSpec};
use std::alloc::{AllocError, Global};

fn channel_on(edge: &EdgeSpec, sender: u32, receiver: u32, route: Route) -> Channel
    ensures { channel_view result ≡ channel_on edge.now sender receiver (route_view route) }
{
    Channel {
        sender,
        receiver,
        port: edge.port,
        route,
        marked: edge.back,
    }
}

fn route_to(route: EdgeRoute, parallelism: u32, subtask: u32) -> Route
    ensures { route_view result ≡ route_to route parallelism subtask }
{
    match route {
        EdgeRoute::Hash => Route::Lanes {
            parallelism,
            subtask,
        },
        EdgeRoute::Forward | EdgeRoute::Broadcast => Route::Every,
    }
}

fn push_forward(
    channels: &mut Vec<Channel>,
    edge: &EdgeSpec,
    from: u32,
    to: u32,
    count: u32,
) -> Result<(), AllocError>
    requires from_fits { from + count < 2 ^ 32 }
    requires to_fits { to + count < 2 ^ 32 }
    ensures { OnOk result (map channel_view channels.new.items
        ≡ map channel_view channels.old.items ++ forward_channels edge.now from to count) }
{
    for i in 0..count {
        channels.push(channel_on(edge, from + i, to + i, Route::Every))?;
    }
    Ok(())
}

fn push_to_each(
    channels: &mut Vec<Channel>,
    edge: &EdgeSpec,
    sender: u32,
    to: u32,
    count: u32,
) -> Result<(), AllocError>
    requires { to + count < 2 ^ 32 }
    ensures { OnOk result (map channel_view channels.new.items
        ≡ map channel_view channels.old.items ++ channels_to edge.now sender to count) }
{
    for i in 0..count {
        let route = route_to(edge.route, count, i);
        channels.push(channel_on(edge, sender, to + i, route))?;
    }
    Ok(())
}

fn push_crossed(
    channels: &mut Vec<Channel>,
    edge: &EdgeSpec,
    from: u32,
    senders: u32,
    to: u32,
    receivers: u32,
) -> Result<(), AllocError>
    requires from_fits { from + senders < 2 ^ 32 }
    requires to_fits { to + receivers < 2 ^ 32 }
    ensures { OnOk result (map channel_view channels.new.items
        ≡ map channel_view channels.old.items
        ++ crossed_channels edge.now from senders to receivers) }
{
    for i in 0..senders {
        push_to_each(channels, edge, from + i, to, receivers)?;
    }
    Ok(())
}

fn push_edge(
    channels: &mut Vec<Channel>,
    parallelisms: &[u32],
    firsts: &[u32],
    edge: &EdgeSpec,
) -> Result<(), AllocError>
    requires small { sum parallelisms.now < 2 ^ 31 }
    requires len { length firsts.now ≡ length parallelisms.now }
    requires firsts { (i : ℕ) → i < length parallelisms.now
        → slice_index firsts.now i ≡ first_task parallelisms.now i }
    requires from { edge.now.from < length parallelisms.now }
    requires to { edge.now.to < length parallelisms.now }
    ensures { OnOk result (map channel_view channels.new.items
        ≡ map channel_view channels.old.items ++ edge_channels parallelisms.now edge.now) }
{
    let (from, to) = (firsts[edge.from], firsts[edge.to]);
    let (senders, receivers) = (parallelisms[edge.from], parallelisms[edge.to]);
    match edge.route {
        EdgeRoute::Forward => push_forward(channels, edge, from, to, senders),
        EdgeRoute::Hash | EdgeRoute::Broadcast => {
            push_crossed(channels, edge, from, senders, to, receivers)
        }
    }
}

/// The channels of the edges, in file order.
pub fn channels(
    alloc: Global,
    parallelisms: &[u32],
    firsts: &[u32],
    edges: &[EdgeSpec],
) -> Result<Vec<Channel>, AllocError>
    requires small { sum parallelisms.now < 2 ^ 31 }
    requires len { length firsts.now ≡ length parallelisms.now }
    requires firsts { (i : ℕ) → i < length parallelisms.now
        → slice_index firsts.now i ≡ first_task parallelisms.now i }
    requires ends { All (λ e. (e.from < length parallelisms.now)
        × (e.to < length parallelisms.now)) edges.now }
    ensures { IfOk result (λ v. map channel_view v.items
        ≡ flat_map (edge_channels parallelisms.now) edges.now) }
{
    let mut channels = Vec::new(alloc);
    for edge in edges {
        push_edge(&mut channels, parallelisms, firsts, edge)?;
    }
    Ok(channels)
}
