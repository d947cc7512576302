//! Tests of a station with readers: a run beside readers in threads of their own, what readers read
//! once the job has failed and was restarted, and what is refused. What is read is compared with
//! rows that are worked out here.
#![tactic(auto)]

#[cfg(test)]
mod lines;
#[cfg(test)]
mod playing;
#[cfg(test)]
mod readers;
#[cfg(test)]
mod refused;
#[cfg(test)]
mod rows;
#[cfg(test)]
mod watchers;
