//! A value that one owner writes and others read with it.

ghost use Rattle.std.specs.Prelude.{◌≡◌, IfOk, IfErr, IfSome};
ghost use Rattle.std.specs.Arc.{arc_value};

use std::alloc::Global;
use std::marker::Model;
use std::mem::replace;
use std::sync::Arc;

/// A value that is this owner's alone, or that may be lent.
#[derive(Drop)]
pub(crate) enum Kept<T> {
    Alone(T),
    Shared(Arc<T, Global>),
}

/// A value that may be lent to readers once it is made ready for that.
#[derive(Drop)]
pub(crate) struct Lendable<T> {
    pub(crate) kept: Kept<T>,
}

impl<T> Model for Lendable<T> {
    ghost use Rattle.keyed_state.specs.Lending.{kept_value};

    ghost Value = { T };

    ghost view = { λ l. kept_value l.kept };
}

/// A value that was lent: it is read, and stays as it is.
#[derive(Drop)]
pub(crate) struct Lent<T> {
    value: Arc<T, Global>,
}

impl<T> Model for Lent<T> {
    ghost use Rattle.std.specs.Arc.{arc_value};

    ghost Value = { T };

    ghost view = { λ l. arc_value l.value };
}

/// Takes a shared value out, and puts this one in its place, where nobody else has it.
fn swap_shared<T>(shared: &mut Arc<T, Global>, value: T) -> Result<T, T>
    ensures ok { IfOk result (λ former. (former ≡ arc_value shared.old)
        × (arc_value shared.new ≡ value)) }
    ensures err { IfErr result (λ back. (back ≡ value) × (shared.new ≡ shared.old)) }
{
    match Arc::get_mut(shared) {
        Some(seen) => Ok(replace(seen, value)),
        None => Err(value),
    }
}

impl<T> Lendable<T> {
    /// A value that is its owner's alone.
    pub(crate) fn new(value: T) -> Self
        ensures { result ≡ value }
    {
        Lendable {
            kept: Kept::Alone(value),
        }
    }

    /// The value that was lent, shared with those who read it.
    pub(crate) fn of_lent(lent: Lent<T>) -> Self
        ensures { result ≡ lent }
    {
        Lendable {
            kept: Kept::Shared(lent.value),
        }
    }

    /// The value.
    pub(crate) fn value(&self) -> &T
        ensures { result.now ≡ self.now }
    {
        match &self.kept {
            Kept::Alone(value) => value,
            Kept::Shared(shared) => shared,
        }
    }

    /// Takes the value out, and puts this one in its place, where nobody reads it. Else this one is
    /// handed back. It takes no memory.
    pub(crate) fn swap(&mut self, value: T) -> Result<T, T>
        ensures ok { IfOk result (λ former. (former ≡ self.old) × (self.new ≡ value)) }
        ensures err { IfErr result (λ back. (back ≡ value) × (self.new ≡ self.old)) }
    {
        match &mut self.kept {
            Kept::Alone(seen) => Ok(replace(seen, value)),
            Kept::Shared(shared) => swap_shared(shared, value),
        }
    }

    /// Whether it is ready to be lent.
    pub(crate) fn is_ready(&self) -> bool {
        matches!(self.kept, Kept::Shared(_))
    }

    /// The same value, made ready to be lent where there is memory for that.
    pub(crate) fn ready(self, alloc: Global) -> Self
        ensures { result ≡ self }
    {
        match self.kept {
            Kept::Alone(value) => match Arc::new(alloc, value) {
                Ok(shared) => Lendable {
                    kept: Kept::Shared(shared),
                },
                Err(refused) => Lendable::new(refused.value),
            },
            Kept::Shared(shared) => Lendable {
                kept: Kept::Shared(shared),
            },
        }
    }

    /// The value for a reader, where it is ready to be lent. It takes no memory.
    pub(crate) fn lend(&self) -> Option<Lent<T>>
        ensures { IfSome result (λ lent. lent ≡ self.now) }
    {
        let Kept::Shared(shared) = &self.kept else {
            return None;
        };
        match Arc::try_clone(shared) {
            Ok(value) => Some(Lent { value }),
            Err(_) => None,
        }
    }
}

impl<T: Drop> Lendable<T> {
    /// Puts this value in the place of the one that is there. Whoever was lent that one keeps it.
    pub(crate) fn put(&mut self, value: T)
        ensures { self.new ≡ value }
    {
        if let Err(value) = self.swap(value) {
            *self = Lendable::new(value);
        }
    }
}

impl<T> Lent<T> {
    /// The value.
    pub(crate) fn value(&self) -> &T
        ensures { result.now ≡ self.now }
    {
        &self.value
    }
}
