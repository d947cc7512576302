//! Jobs whose output was worked out by hand, run on the plain machine.
#![tactic(auto)]

#[cfg(test)]
mod tests;
