//! The state that a key was seen to have.

ghost use Rattle.std.specs.Prelude.{◌≡◌, Some};
ghost use Rattle.std.specs.Option.{option_copied};

use std::marker::Model;

/// The state that a key was seen to have, or none, and where it stood: that is a guess, which saves
/// a search. Contracts see the state.
#[derive(Drop)]
pub struct Seen<S> {
    state: Option<S>,
    place: u32,
}

impl<S> Model for Seen<S> {
    ghost use Rattle.std.specs.Prelude.{Option};

    ghost Value = { Option S };

    ghost view = { λ s. s.state };
}

impl<S> Seen<S> {
    /// A key has this state, which stands at a place.
    pub(crate) fn at(state: S, place: u32) -> Self
        ensures { result ≡ Some state }
    {
        Seen {
            state: Some(state),
            place,
        }
    }

    /// A key has this state, wherever it stands, or none.
    pub fn somewhere(state: Option<S>) -> Self
        ensures { result ≡ state }
    {
        Seen {
            state,
            place: u32::MAX,
        }
    }

    /// The state, if there is one.
    pub fn state(&self) -> Option<&S>
        ensures { option_copied result ≡ self.now }
    {
        self.state.as_ref()
    }

    /// Where it stood.
    pub(crate) fn place(&self) -> u32 {
        self.place
    }
}
