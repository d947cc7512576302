//! The states that are left while records are worked, each at its key's place. The places are those
//! of the keys that the work carries, by rising keys: a record's place is guessed, or else found by
//! a search by halves, and its state is put there with no entry made.

ghost use Rattle.std.specs.Prelude.{◌≡◌, ◌<◌, [], Some, None, IfOk, IfSome, IfNone, IsTrue, length};
ghost use Rattle.std.specs.List.Sorted.{IsStrictlySortedBy};
ghost use Rattle.std.specs.Map.{keys_of};
ghost use Rattle.std.specs.Option.{option_copied};
ghost use Rattle.claims.specs.Places.{given_at, left_at, state_at, IsPlaceOf, HasPlace, LeavesAt};

use crate::states::Copies;
use abs_codec::{Codec, NoMemory};
use keyed_state::Seen;
use std::alloc::Global;
use std::cmp::Ordering;

/// A key's place: the state that is given there, and the one that is left, once one is.
#[derive(Drop)]
pub(crate) struct Place<'a, K, S> {
    key: &'a K,
    given: &'a Seen<S>,
    left: Option<S>,
}

/// The places of the keys of these states, by rising keys. No state is left yet.
pub(crate) fn places_of<'a, K: Ord, S: Drop>(
    alloc: Global,
    copies: &'a Copies<K, S>,
) -> Result<Vec<Place<'a, K, S>>, NoMemory>
    ensures given { IfOk result (λ places. given_at places.items ≡ copies.now) }
    ensures none { IfOk result (λ places. left_at places.items ≡ []) }
{
    let (keys, states) = copies.columns();
    let mut places = Vec::with_capacity(alloc, keys.len())?;
    for (key, given) in keys.iter().zip(states) {
        places.push(Place {
            key,
            given,
            left: None,
        })?;
    }
    Ok(places)
}

/// Whether a key stands at a place.
fn stands_at<K: Ord, S>(places: &[Place<K, S>], place: usize, key: &K) -> bool
    ensures { IsTrue result → IsPlaceOf K.cmp places.now (Some key.now) place }
{
    match places.get(place) {
        Some(found) => key.cmp(found.key) == Ordering::Equal,
        None => false,
    }
}

/// The place of a record's key, if it has one. Where it is not the one that is guessed, it takes
/// time logarithmic in how many there are.
pub(crate) fn place_of<K: Ord, S>(
    places: &[Place<K, S>],
    key: &Option<K>,
    guess: Option<&u32>,
) -> Option<usize>
    requires rising { IsStrictlySortedBy K.cmp (keys_of (given_at places.now)) }
    requires keyed { HasPlace K.cmp places.now key.now }
    ensures found { IfSome result (λ place. IsPlaceOf K.cmp places.now key.now place) }
    ensures none { IfNone result (key.now ≡ None) }
{
    let key = key.as_ref()?;
    if let Some(guess) = guess {
        if stands_at(places, *guess as usize, key) {
            return Some(*guess as usize);
        }
    }
    places.binary_search_by(|place| place.key.cmp(key)).ok()
}

/// The state at a place: the one that is left there, or else the one that is given.
pub(crate) fn state_of<'a, K, S>(places: &'a [Place<K, S>], place: Option<usize>) -> Option<&'a S>
    ensures { option_copied result ≡ state_at places.now place }
{
    let place = places.get(place?)?;
    match &place.left {
        Some(state) => Some(state),
        None => place.given.state(),
    }
}

/// Leaves the state at a place, in the stead of the one that was left there before.
pub(crate) fn put_at<K: Ord, S: Drop>(places: &mut [Place<K, S>], place: usize, state: S)
    requires rising { IsStrictlySortedBy K.cmp (keys_of (given_at places.old)) }
    requires place { place < length places.old }
    ensures given { given_at places.new ≡ given_at places.old }
    ensures left { (key : K) → IsPlaceOf K.cmp places.old (Some key) place → LeavesAt K.cmp key
        state (left_at places.old) (left_at places.new) }
{
    places[place].left = Some(state);
}

/// The entries that are left, by rising keys.
pub(crate) fn entries_of<K: Codec + Drop, S: Drop>(
    alloc: Global,
    places: Vec<Place<K, S>>,
) -> Result<Vec<(K, S)>, NoMemory>
    ensures { IfOk result (λ entries. entries.items ≡ left_at places.entry.items) }
{
    let mut entries = Vec::with_capacity(alloc, places.len())?;
    for Place { key, left, .. } in places {
        if let Some(state) = left {
            entries.push((key.copied()?, state))?;
        }
    }
    Ok(entries)
}
