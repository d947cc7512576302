//! Values that compare equal are the same value: what `==` and `cmp` cannot tell apart, nothing
//! can.

ghost use Rattle.std.specs.Prelude.{◌≡◌};
ghost use Rattle.std.specs.declared.cmp.Ordering.TheVariants.{Equal};
ghost use Rattle.abs_codec.specs.Same.{EqualIsSame};
ghost use Rattle.abs_codec.specs.declared.text.Text.{Text};

use crate::items::Items;
use crate::map::Map;
use crate::text::{Bytes, Text};

/// Texts that compare equal are one text.
pub fn equal_texts_are_one()
    ensures same { EqualIsSame ⟦<Text as PartialEq>⟧.eq }
    ensures at_order { (a b : Text) → ⟦<Text as Ord>⟧.cmp a b ≡ Equal → a ≡ b }
{}

/// Bytes that compare equal are the same bytes.
pub fn equal_bytes_are_one()
    ensures { EqualIsSame ⟦<Bytes as PartialEq>⟧.eq }
{}

/// Where that holds of the items, it holds of lists of them.
pub fn equal_items_are_one<T: PartialEq>()
    ensures { EqualIsSame T.eq → EqualIsSame ⟦<Items<T> as PartialEq>⟧.eq }
{}

/// Where that holds of the keys and the values, it holds of maps.
pub fn equal_maps_are_one<K: Ord, V: PartialEq>()
    ensures { EqualIsSame K.eq → EqualIsSame V.eq → EqualIsSame ⟦<Map<K, V> as PartialEq>⟧.eq }
{}

/// Numbers that compare equal are one number.
pub fn equal_numbers_are_one()
    ensures byte { EqualIsSame ⟦<u8 as PartialEq>⟧.eq }
    ensures short { EqualIsSame ⟦<u32 as PartialEq>⟧.eq }
    ensures long { EqualIsSame ⟦<u64 as PartialEq>⟧.eq }
    ensures signed { EqualIsSame ⟦<i64 as PartialEq>⟧.eq }
{}
