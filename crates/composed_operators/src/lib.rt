//! Operators that are made of two: an operator behind another ([`Chain`]), and one of two
//! ([`Pick`]). Proved: the laws of the trait `Operator` for both, and for a row operator without
//! keys; `apply` is the operator's meaning, which is the two operators' meanings.
#![tactic(auto)]

mod keyless_row_op;
mod pick;

pub use chained_operators::{Chain, Stateless};
pub use keyless_row_op::KeylessRowOp;
pub use pick::Pick;
