//! Runs by many workers: over devices that fail, with restarts that are spent, with too many
//! workers, two jobs that are out at once, and how many records a job is on. What runs print is
//! compared with rows that are worked out here.
#![tactic(auto)]

#[cfg(test)]
mod faults;
#[cfg(test)]
mod jobs;
#[cfg(test)]
mod meeting;
#[cfg(test)]
mod records_taken;
#[cfg(test)]
mod refused;
#[cfg(test)]
mod runs;
