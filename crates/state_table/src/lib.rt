//! Maps whose states stand at places. Proved: a table is the list of its entries by rising keys, as
//! a `BTreeMap` is, whichever places are guessed.
//!
//! A [`Table`] is a map from key to state. Each state stands in a row of slots, and a tree has
//! the place of each key. Whoever looked a key up may remember its place: [`Table::swap_near`]
//! finds the state there with one comparison, where it is that key's still, and else by the tree.
//! With n keys:
//!
//! - `new` and `len` take constant time and no memory;
//! - `get`, `find`, `swap_near`, `insert` and `remove` take time logarithmic in n, and `swap_near`
//!   constant time where the place is the key's;
//! - `insert` takes memory for a new key alone: a copy of it, its entry in the tree, and a slot;
//! - `above` takes time logarithmic in n, and each further entry is the next in its leaf;
//! - `from_map`, `copied` and `whole` take n insertions.
#![tactic(auto)]

mod entries;
mod table;

pub use entries::Entries;
pub use table::Table;
