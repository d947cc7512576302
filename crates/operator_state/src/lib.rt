//! The states of an operator, and its copy for the checkpoint that is pending. Proved: the part
//! that is spelled, a few entries a call, is the one spelling of the states when it copied,
//! whatever was written meanwhile.
//!
//! An [`OperatorState`] is a `keyed_state::KeyedState` and the bytes of its part. `copy` freezes
//! the map: no entry is copied for it. `spell_some` appends the spelling of the next entries of the
//! frozen map to these bytes, in the order of their keys, and after the last of them the map is
//! thawed. `hand_out` gives the frozen map to someone else to spell the next entries, while the
//! task is not held, and `take_spelled` takes what came of it: a rule over the line between the two
//! says that it spells entries of this copy, and which. What was written since is merged by
//! `merge_some`. `spell_logs` puts the logs
//! behind the entries, so that a part is held once, and a later call puts others there. `part`
//! gives the bytes, and `share_part` an owner more of them, as a snapshot store is.
//!
//! With n entries:
//!
//! - `copy` takes constant time and no memory where nothing is left to merge. Else it merges all of
//!   that first, and where entries of an earlier copy are not spelled yet, it copies all n;
//! - `spell_some` of k entries takes k times a time logarithmic in n, the time and memory of their
//!   spelling, and one copy of a key. What a call cannot spell in full, it takes back;
//! - `hand_out` of k entries takes constant time, and the memory of the line, of a counter and of a
//!   key. Whoever spells them holds the map until then, and takes the time and memory of spelling
//!   k entries. `take_spelled` copies their bytes behind those that come before, if any do;
//! - `spell_logs` takes the time and memory of the spelling of the logs;
//! - `share_part` takes constant time, and the memory of a counter. Where the bytes have another
//!   owner still, what is written next is written over a copy of what stays;
//! - `get`, `set`, `set_all` and `merge_some` are those of `KeyedState`, and all else takes
//!   constant time and no memory.
#![tactic(auto)]

mod handed;
mod operator_state;
mod part_bytes;

pub use handed::CopyWork;
pub use operator_state::OperatorState;
