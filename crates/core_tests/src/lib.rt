//! Tests over the core: lists of calls, cores over the devices of another, over damaged ones and
//! over ones whose numbers are spent, parts of checkpoints byte by byte, copies and outputs that
//! fail, and the texts of the core's faults. What scripts alone can say stands in tests/. Tests own
//! a core and its devices as a `TestCore` and as `Devices`, of which contracts see nothing: a test
//! that owns them at their own types would prove the whole of them let go at each early end.
#![tactic(auto)]

#[cfg(test)]
mod cores;
#[cfg(test)]
mod devices;
#[cfg(test)]
mod failed_copies;
#[cfg(test)]
mod handed;
#[cfg(test)]
mod jobs;
#[cfg(test)]
mod lists;
#[cfg(test)]
mod messages;
#[cfg(test)]
mod parts;
#[cfg(test)]
mod steps;
#[cfg(test)]
mod test_core;
#[cfg(test)]
mod writers;
