//! Stores that lists make.

ghost use Rattle.std.specs.Prelude.{◌≡◌, [], ◌∷◌, IfOk};
ghost use Rattle.std.specs.List.{All};
ghost use Rattle.snapshot_store.specs.Lists.{MayBePut};

use abs_codec::{Bytes, Items, Map};
use snapshot_store::MemoryStore;
use std::alloc::Global;
use std::test::Fail;

/// A list of one item.
fn only<T: Drop>(alloc: Global, item: T) -> Result<Items<T>, Fail>
    ensures { IfOk result (λ items. items ≡ item ∷ []) }
{
    let mut items = Items::new(alloc);
    items.push(item)?;
    Ok(items)
}

/// A store of three tasks that has given out 1 and 2, of which 1 is complete, with these parts.
pub(crate) fn store_of_lists(
    alloc: Global,
    parts: Map<(u64, u32), Bytes>,
) -> Result<MemoryStore, Fail>
    requires { All (MayBePut 3 3) parts }
{
    Ok(MemoryStore::from_lists(alloc, 3, 3, only(alloc, 1)?, parts)?)
}

/// The last number that a store gives out.
const LAST_NUMBER: u64 = (1 << 63) - 1;

/// A store of three tasks that has the last number left.
pub(crate) fn almost_spent(alloc: Global) -> Result<MemoryStore, Fail> {
    let (completes, parts) = (Items::new(alloc), Map::new(alloc));
    Ok(MemoryStore::from_lists(alloc, 3, LAST_NUMBER, completes, parts)?)
}
