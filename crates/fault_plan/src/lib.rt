//! Which calls of a flaky device are to fail. Proved: it is the next call of a kind that fails, or
//! each k-th, and each failure is counted.
//!
//! A plan names for each kind of call whether the next one fails, before its work or after it, and
//! may have each k-th call fail. Each failure is counted, and at the count's last value, 2^64 - 1,
//! no call fails any more.
#![tactic(auto)]

mod plan;

pub use plan::{Plan, When};
