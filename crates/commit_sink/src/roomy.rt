//! Lists with places promised for more.

ghost use Rattle.std.specs.Prelude.{◌≡◌, ◌≤◌, ◌<◌, ◌+◌, ◌-◌, [], ◌∷◌, ◌++◌, OnOk, OnErr, vec_len, vec_capacity};

use abs_codec::NoMemory;
use std::alloc::Global;
use std::marker::Model;

/// A list and how many places are promised: so many items can be put without memory.
#[derive(Drop)]
pub(crate) struct Roomy<T> {
    items: Vec<T>,
    promised: usize,
}

impl<T> Model for Roomy<T> {
    ghost use Rattle.std.specs.Prelude.{◌≤◌, ◌+◌, vec_len, vec_capacity};
    ghost use Rattle.commit_sink.specs.Roomy.{WithRoom};

    ghost Value = { WithRoom T };

    ghost view = { λ r. record { items = r.items.items; promised = r.promised } };

    ghost invariant = { λ r. vec_len r.items + r.promised ≤ vec_capacity r.items };
}

impl<T: Drop> Roomy<T> {
    pub(crate) fn new(alloc: Global) -> Roomy<T>
        ensures { result ≡ record { items = []; promised = 0 } }
    {
        Roomy {
            items: Vec::new(alloc),
            promised: 0,
        }
    }

    /// Promises one more place.
    pub(crate) fn promise(&mut self) -> Result<(), NoMemory>
        ensures ok { OnOk result (self.new ≡ record self.old { promised = self.old.promised + 1 }) }
        ensures err { OnErr result (self.new ≡ self.old) }
    {
        let Some(promised) = self.promised.checked_add(1) else {
            return Err(NoMemory);
        };
        self.items.reserve(promised)?;
        self.promised = promised;
        Ok(())
    }

    /// Takes a promise back.
    pub(crate) fn release(&mut self)
        requires { 1 ≤ self.old.promised }
        ensures { self.new ≡ record self.old { promised = self.old.promised - 1 } }
    {
        self.promised -= 1;
    }

    /// Puts an item last, at a place that was promised.
    pub(crate) fn push(&mut self, item: T)
        requires { 1 ≤ self.old.promised }
        ensures { self.new ≡ record {
          items = self.old.items ++ item ∷ [];
          promised = self.old.promised - 1;
        } }
    {
        self.items.push_reserved(item);
        self.promised -= 1;
    }

    pub(crate) fn as_slice(&self) -> &[T]
        ensures { result.now ≡ self.now.items }
    {
        &self.items
    }
}
