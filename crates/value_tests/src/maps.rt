//! A map that is frozen, and counted on.

use abs_codec::{Codec, Map, Text};
use keyed_state::KeyedState;
use std::alloc::Global;
use std::collections::BTreeMap;
use std::process::Abort;
use std::test::Fail;

/// A state as a number of one kind, with the kind's byte before it.
type Counts = KeyedState<Text, (u8, i64)>;

/// The keys a, b and c, each counted once.
const FROZEN: [u8; 46] = [
    0, 0, 0, 3, 0, 0, 0, 1, 0x61, 1, 0, 0, 0, 0, 0, 0, 0, 1, 0, 0, 0, 1, 0x62, 1, 0, 0, 0, 0, 0, 0,
    0, 1, 0, 0, 0, 1, 0x63, 1, 0, 0, 0, 0, 0, 0, 0, 1,
];

/// The same, but a counted twice, and the key d, counted once.
const SEEN: [u8; 60] = [
    0, 0, 0, 4, 0, 0, 0, 1, 0x61, 1, 0, 0, 0, 0, 0, 0, 0, 2, 0, 0, 0, 1, 0x62, 1, 0, 0, 0, 0, 0, 0,
    0, 1, 0, 0, 0, 1, 0x63, 1, 0, 0, 0, 0, 0, 0, 0, 1, 0, 0, 0, 1, 0x64, 1, 0, 0, 0, 0, 0, 0, 0, 1,
];

/// The keys c, a and b, each counted once.
fn counted_once(alloc: Global) -> Result<Counts, Fail> {
    let mut tree = BTreeMap::new(alloc);
    for key in ["c", "a", "b"] {
        tree.insert(Text::from_str(alloc, key)?, (1, 1))?;
    }
    Ok(KeyedState::from_map(alloc, Map::from_btree_map(alloc, tree))?)
}

/// Freezes them, and counts a once more and d for the first time.
fn count_on(alloc: Global, counts: &mut Counts) -> Result<(), Fail> {
    counts.freeze()?;
    counts.set(Text::from_str(alloc, "d")?, (1, 1))?;
    counts.set(Text::from_str(alloc, "a")?, (1, 2))?;
    Ok(())
}

/// The frozen map is spelled as it was when it was frozen, and the other as it is.
fn expect_both(rt: &impl Abort, alloc: Global, counts: &Counts) -> Result<(), Fail> {
    let mut out = Vec::new(alloc);
    if let Some(frozen) = counts.frozen() {
        frozen.whole()?.encode(&mut out)?;
    }
    assert_eq!(rt; out.as_slice(), FROZEN.as_slice());
    counts.encode(&mut out)?;
    assert_eq!(rt; &out[46..], SEEN.as_slice());
    Ok(())
}

#[test]
fn the_frozen_map_stays(rt: HostRuntime) -> Result<(), Fail> {
    let mut counts = counted_once(rt.alloc())?;
    count_on(rt.alloc(), &mut counts)?;
    expect_both(&rt, rt.alloc(), &counts)
}
