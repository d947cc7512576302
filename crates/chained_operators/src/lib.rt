//! An operator behind another ([`Chain`]). Proved: the laws of the trait `Operator` for it; `apply`
//! is the operator's meaning, which is the two operators' meanings. It stands in a crate of its
//! own, since it has edits that the prover must refuse.
#![tactic(auto)]

mod chain;
mod stateless;

pub use chain::Chain;
pub use stateless::Stateless;
