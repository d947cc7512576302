//! Tests of what stands below the core: transactions that lists make, a log that fails at each
//! second call, graphs as jobs expand to them, and the texts of faults.
#![tactic(auto)]

#[cfg(test)]
mod graphs;
#[cfg(test)]
mod lists;
#[cfg(test)]
mod messages;
#[cfg(test)]
mod turns;
