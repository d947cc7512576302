//! The map of an operator, from key to state, and the map as it was when it was frozen. Proved: a
//! finite map with a frozen copy, which no later write changes.
//!
//! A [`KeyedState`] is a finite map that is read and written by key. `freeze` keeps it as it is now
//! beside it: later writes change the map that is seen, and the frozen one stays until `thaw`. Its
//! entries are read in the order of their keys.
//!
//! Nothing is copied for that. A map is a base, and an overlay of what was written since `freeze`:
//! what is seen is the base with the overlay put over it, and what is frozen is the base. After
//! `thaw` the overlay is merged into the base, as few entries a call as the caller likes, and `get`
//! and `set` go on meanwhile. With n keys in the base and m in the overlay:
//!
//! - `len`, `is_empty`, `is_frozen`, `unmerged`, `frozen` and `thaw` take constant time and no
//!   memory; `from_map` takes n insertions, and the memory of a copy of each key beside the states;
//! - `freeze` does too where m is 0. Else it merges all m. Where the map is frozen already and was
//!   written since, it copies all of it;
//! - `get`, `set` and `frozen_above` take time logarithmic in n + m, and `set` memory for a new
//!   entry alone; each further entry of `frozen_above` is the next in its leaf;
//! - `set_all` of k entries takes k times the time of `set`, and beside the new entries the memory
//!   of a list of the k keys with what was there before (where m is not 0 and nothing is frozen,
//!   room for two), and of a copy of each key that is new. It sets all of them or, where memory is
//!   refused, none;
//! - `merge` of k entries takes k copies of one entry, and k times a time logarithmic in n + m;
//! - `lend` takes constant time and no memory. It answers the map where nothing is frozen and m is
//!   0, once entries were put by `set_all` or `compare_and_set_all` and there was memory for a
//!   counter. Whoever was lent it reads it as it was then: where it is written while somebody has
//!   it still, it is copied first;
//! - `lend_frozen` answers the frozen map in the same way, and takes the memory of a counter where
//!   it was not lent before; `from_lent` takes no memory;
//! - `encode` takes the time and memory of the spelling, and of two copies of it all.
#![tactic(auto)]

mod comparing;
mod keyed_map;
mod lending;
mod putting;
mod seen;
mod state_map;

pub use comparing::SetFault;
pub use keyed_map::{KeyedState, LentStates};
pub use seen::Seen;
