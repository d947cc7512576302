//! The bytes of a part, which others may hold as well.

ghost use Rattle.std.specs.Prelude.{◌≡◌, ◌≤◌, ◌++◌, List, [], ℕ, length, take, IfOk, IfErr, IfSome, IfNone, OnOk, OnErr, MatchResult};
ghost use Rattle.operator_state.specs.Held.{held_bytes};

use abs_codec::NoMemory;
use bytes::Bytes;
use std::alloc::Global;
use std::marker::Model;
use std::mem::replace;

/// Where the bytes of a part stand.
#[derive(Drop)]
pub(crate) enum Held {
    /// With the task alone, which may write more.
    Own(Vec<u8>),
    /// With others as well.
    Shared(Bytes),
}

/// The bytes of a part. Contracts see them as a list.
#[derive(Drop)]
pub(crate) struct PartBytes {
    held: Held,
}

impl Model for PartBytes {
    ghost use Rattle.std.specs.Prelude.{ℕ, List};
    ghost use Rattle.operator_state.specs.Held.{held_bytes};

    ghost Value = { List ℕ };

    ghost view = { λ p. held_bytes p.held };
}

/// The bytes for others to hold, or as they were where memory is refused.
fn shared(held: Held) -> Result<Bytes, Held>
    ensures { MatchResult result (λ bytes. bytes ≡ held_bytes held)
        (λ same. held_bytes same ≡ held_bytes held) }
{
    match held {
        Held::Own(own) => match Bytes::from_vec(own) {
            Ok(bytes) => Ok(bytes),
            Err(refused) => Err(Held::Own(refused.value)),
        },
        Held::Shared(bytes) => Ok(bytes),
    }
}

/// Puts a piece behind a front. A front without bytes gives way to it.
fn join(front: &mut Vec<u8>, piece: Vec<u8>) -> Result<(), NoMemory>
    ensures ok { OnOk result (front.new.items ≡ front.old.items ++ piece.items) }
    ensures err { OnErr result (front.new.items ≡ front.old.items) }
{
    if front.is_empty() {
        *front = piece;
        return Ok(());
    }
    front.extend_from_slice(&piece)?;
    Ok(())
}

impl PartBytes {
    /// No bytes. It takes no memory.
    pub(crate) fn new(alloc: Global) -> PartBytes
        ensures { result ≡ [] }
    {
        PartBytes::from_vec(Vec::new(alloc))
    }

    /// These bytes, which are not copied.
    pub(crate) fn from_vec(bytes: Vec<u8>) -> PartBytes
        ensures { result ≡ bytes.items }
    {
        PartBytes {
            held: Held::Own(bytes),
        }
    }

    pub(crate) fn as_slice(&self) -> &[u8]
        ensures { result.now ≡ self.now }
    {
        match &self.held {
            Held::Own(own) => own.as_slice(),
            Held::Shared(bytes) => bytes.as_slice(),
        }
    }

    /// The first so many of the bytes, to be written on, and none stay here. They are copied where
    /// others may hold them.
    pub(crate) fn take_front(&mut self, alloc: Global, end: usize) -> Result<Vec<u8>, NoMemory>
        requires { end ≤ length self.old }
        ensures ok { IfOk result (λ front. front.items ≡ take end self.old) }
        ensures err { OnErr result (self.new ≡ self.old) }
    {
        match &mut self.held {
            Held::Own(own) => {
                let mut front = replace(own, Vec::new(alloc));
                front.truncate(end);
                Ok(front)
            }
            Held::Shared(bytes) => Ok(Vec::from_slice(alloc, &bytes.as_slice()[..end])?),
        }
    }

    /// Puts a piece behind the first so many of the bytes, and says where it ends. Where memory is
    /// refused, these stay.
    pub(crate) fn put_behind(&mut self, alloc: Global, end: usize, piece: Vec<u8>) -> Option<usize>
        requires { end ≤ length self.old }
        ensures end { IfSome result (λ next. next ≡ length self.new) }
        ensures put { IfSome result (λ _. self.new ≡ take end self.old ++ piece.items) }
        ensures within { IfNone result (end ≤ length self.new) }
        ensures none { IfNone result (take end self.new ≡ take end self.old) }
    {
        let Ok(mut bytes) = self.take_front(alloc, end) else {
            return None;
        };
        let joined = join(&mut bytes, piece);
        let next = bytes.len();
        *self = PartBytes::from_vec(bytes);
        match joined {
            Ok(()) => Some(next),
            Err(_) => None,
        }
    }

    /// The bytes, which others may hold from now on.
    pub(crate) fn share(&mut self, alloc: Global) -> Result<Bytes, NoMemory>
        ensures ok { IfOk result (λ bytes. bytes ≡ self.old) }
        ensures same { self.new ≡ self.old }
    {
        match shared(replace(&mut self.held, Held::Own(Vec::new(alloc)))) {
            Ok(bytes) => {
                let other: Result<_, _> = bytes.clone();
                self.held = Held::Shared(bytes);
                Ok(other?)
            }
            Err(held) => {
                self.held = held;
                Err(NoMemory)
            }
        }
    }
}
