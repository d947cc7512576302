//! Channels between tasks.

/// Which records of its port a channel takes.
#[derive(Clone, Copy, Debug, PartialEq, Eq)]
pub enum Route {
    /// Takes all of them.
    Every,
    /// Takes those whose lane, by the receiver's parallelism, falls to the receiving subtask.
    Lanes { parallelism: u32, subtask: u32 },
}

impl Route {
    ghost use Rattle.std.specs.Prelude.{◌≡◌};
    ghost use Rattle.dataflow_model.specs.Graph.{takes_lane};
    ghost use Rattle.job_channels.specs.Channel.{route_view, HasSubtask};

    /// Whether a record of this lane goes into the channel.
    pub fn takes(self, lane: u64) -> bool
        requires { HasSubtask (route_view self) }
        ensures { result ≡ takes_lane (route_view self) lane }
    {
        match self {
            Route::Every => true,
            Route::Lanes {
                parallelism,
                subtask,
            } => lane % parallelism as u64 == subtask as u64,
        }
    }
}

/// A channel between two tasks, which are given by their numbers.
#[derive(Clone, Copy, Debug, PartialEq, Eq)]
pub struct Channel {
    pub sender: u32,
    pub receiver: u32,
    pub port: u32,
    pub route: Route,
    /// Whether the channel is a back-edge's.
    pub marked: bool,
}
