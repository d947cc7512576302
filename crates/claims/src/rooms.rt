//! Room for the work of a claim.

ghost use Rattle.std.specs.Prelude.{◌≡◌, ◌≤◌, [], IfOk, vec_capacity};

use abs_codec::NoMemory;
use operators::Operator;
use std::alloc::Global;
use std::marker::Model;
use std::mem::replace;

/// Room is taken beforehand for claims of so many records at most. That of greater ones costs next
/// to nothing for each of their records.
const MOST: u32 = 8;

/// Room for the records of a claim and for their keys, which is taken before the claim is made,
/// while nothing is held. Contracts see none of it.
#[derive(Drop)]
pub struct Room<O: Operator> {
    rows: Vec<O::Record>,
    keys: Vec<O::Key>,
}

impl<O: Operator> Model for Room<O> {
    ghost use Rattle.std.specs.Prelude.{◌≡◌, []};

    ghost Value = { Unit {0} };

    ghost view = { λ r. tt };

    ghost invariant = { λ r. (r.rows.items ≡ []) × (r.keys.items ≡ []) };
}

/// The room that there is, where it is for so many, or else none.
fn taken<T: Drop>(alloc: Global, room: &mut Vec<T>, count: usize) -> Vec<T>
    requires { room.old.items ≡ [] }
    ensures taken { result.items ≡ [] }
    ensures left { room.new.items ≡ [] }
{
    if room.capacity() < count {
        return Vec::new(alloc);
    }
    replace(room, Vec::new(alloc))
}

/// Takes room for so many where there is none. None is taken where memory is refused.
fn make_room<T: Drop>(room: &mut Vec<T>, count: usize)
    ensures { room.new.items ≡ room.old.items }
{
    if room.capacity() == 0 {
        let _ = room.reserve_exact(count);
    }
}

impl<O: Operator> Room<O> {
    /// No room. It takes no memory.
    pub fn new(alloc: Global) -> Self {
        Room {
            rows: Vec::new(alloc),
            keys: Vec::new(alloc),
        }
    }

    /// Takes room for a claim of so many records, if they are few, where there is none. None is
    /// taken where memory is refused.
    pub fn make(&mut self, records: u32) {
        if records <= MOST {
            make_room(&mut self.rows, records as usize);
            make_room(&mut self.keys, records as usize);
        }
    }

    /// Room for so many records.
    pub(crate) fn take_rows(
        &mut self,
        alloc: Global,
        count: usize,
    ) -> Result<Vec<O::Record>, NoMemory>
        ensures none { IfOk result (λ rows. rows.items ≡ []) }
        ensures room { IfOk result (λ rows. count ≤ vec_capacity rows) }
    {
        let mut rows = taken(alloc, &mut self.rows, count);
        rows.reserve_exact(count)?;
        Ok(rows)
    }

    /// Where no record had a key, the room for keys is there for the next claim.
    pub(crate) fn leave_keys(&mut self, keys: Vec<O::Key>)
        requires { keys.items ≡ [] }
    {
        self.keys = keys;
    }

    /// Room for so many keys, if it was taken.
    pub(crate) fn take_keys(&mut self, alloc: Global, count: usize) -> Vec<O::Key>
        ensures { result.items ≡ [] }
    {
        taken(alloc, &mut self.keys, count)
    }
}
