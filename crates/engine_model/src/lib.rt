//! What an engine holds, as data, and what its calls do to it, in terms of the checkpoint model.
//! The only code here is that of [`CoreFault`], [`Persisted`] and [`Start`]; [`Rules`] gives
//! clauses short names for what an operator brings. Proved, in lemmas that the contracts of the
//! calls cite: each call on a running job, accepted, refused or cut short by a device, and each
//! restart, keeps what every engine keeps and is steps of the model's engine; a checkpoint that
//! completes is the cut that its attempt has made so far; a sound engine is exactly once; no step
//! withdraws a committed row; a restart of a sound engine goes on from the last complete cut, and
//! is not refused for what the devices hold.
//!
//! `State` is all that an engine holds; `engine_of` is what it stands for in the model, as a
//! function of numbers; `Keeps` is what every engine keeps; the relations `Ends..` say how each
//! call on a running job ends. The laws stand where they are promised: in the clauses of `engine`.
#![tactic(auto)]

mod fault;
mod persisted;
mod rules;
mod start;

pub use fault::CoreFault;
pub use persisted::Persisted;
pub use rules::Rules;
pub use start::Start;
