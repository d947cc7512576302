//! A copy that is spelled by someone else, while nothing of its task is held.

ghost use Rattle.std.specs.Prelude.{◌≡◌, IfOk, IfSome, Some};
ghost use Rattle.crossbeam_queue.specs.Passes.{view, IsPassOf};
ghost use Rattle.operator_state.specs.Handed.{IsSheetOf};
ghost use Rattle.operator_state.specs.Spelled.{ComesNext};
ghost use Rattle.operator_state.specs.declared.handed.Sheet.TheVariants as Sheet;

use crate::operator_state::spell_piece;
use abs_codec::{Codec, NoMemory};
use crossbeam_queue::protocol::{Outcome, Protocol, Split};
use crossbeam_queue::{Pass, RuledArrayQueue};
use keyed_state::LentStates;
use std::alloc::Global;
use std::collections::LinkedList;
use std::marker::{Model, PhantomData};
use std::sync::Arc;

/// The next entries of a copy, spelled.
#[derive(Drop)]
pub(crate) struct Piece<K> {
    /// Whether entries come before these.
    pub(crate) begun: bool,
    /// How many entries were left to be spelled before it.
    pub(crate) before: usize,
    /// The key of the last entry in it.
    pub(crate) last: Option<K>,
    /// How many entries are left behind it.
    pub(crate) left: usize,
    /// The head of the part, where no entries come before these, and the entries.
    pub(crate) bytes: Vec<u8>,
}

/// What goes through the line between a task and whoever spells its copy.
#[derive(Drop)]
pub(crate) enum Sheet<K: Codec + Ord, S: Codec> {
    /// The entries of the copy.
    Blank(LentStates<K, S>),
    /// Some of them, spelled.
    Written(Piece<K>),
}

/// The entries that a side knows to be those of the copy. No value of it is made.
type Known<K, S> = Option<LinkedList<(K, S)>>;

/// The rule of a line: its sheets are of one copy.
pub(crate) struct OneCopy<K, S> {
    copy: PhantomData<(K, S)>,
}

impl<K: Codec + Ord, S: Codec> Protocol<Sheet<K, S>, Known<K, S>> for OneCopy<K, S> {
    ghost use Rattle.std.specs.Prelude.{None};
    ghost use Rattle.operator_state.specs.Handed.{GoesThrough};

    ghost holds = { GoesThrough K.Ord.cmp K.HasSpelling K.spelling S.HasSpelling S.spelling };

    ghost first = { None };
}

/// The entries are laid there.
struct Lays;

impl<K: Codec + Ord, S: Codec> Outcome<Sheet<K, S>, Known<K, S>> for Lays {
    ghost use Rattle.operator_state.specs.Handed.{Lays};

    ghost then = { Lays };
}

/// A sheet is put there.
struct Puts;

impl<K: Codec + Ord, S: Codec> Outcome<Sheet<K, S>, Known<K, S>> for Puts {
    ghost use Rattle.operator_state.specs.Handed.{Puts};

    ghost then = { Puts };
}

/// A sheet is taken from there.
struct Takes;

impl<K: Codec + Ord, S: Codec> Outcome<Sheet<K, S>, Known<K, S>> for Takes {
    ghost use Rattle.operator_state.specs.Handed.{Takes};

    ghost then = { Takes K.Ord.cmp K.HasSpelling K.spelling S.HasSpelling S.spelling };
}

/// Two sides know what one knew.
struct Both;

impl<V> Split<V> for Both {
    ghost left = { λ v. v };

    ghost right = { λ v. v };
}

type Line<K, S> = RuledArrayQueue<Sheet<K, S>, Known<K, S>, OneCopy<K, S>>;

type End<K, S> = Pass<Sheet<K, S>, Known<K, S>>;

/// One side of a line. Contracts see the entries that are to be spelled.
#[derive(Drop)]
pub(crate) struct Side<K: Codec + Ord, S: Codec> {
    line: Arc<Line<K, S>, Global>,
    pass: End<K, S>,
}

impl<K: Codec + Ord, S: Codec> Model for Side<K, S> {
    ghost use Rattle.std.specs.Prelude.{List};
    ghost use Rattle.std.specs.Arc.{arc_value};
    ghost use Rattle.operator_state.specs.Handed.{entries_of, IsSideOf};

    ghost Value = { List (K × S) };

    ghost view = { λ s. entries_of s.pass };

    ghost invariant = { λ s. IsSideOf (arc_value s.line) s.pass };
}

impl<K: Codec + Ord, S: Codec> Side<K, S> {
    /// A line on which these entries are laid, and its first end.
    fn laid(alloc: Global, lent: LentStates<K, S>) -> Result<(Line<K, S>, End<K, S>), NoMemory>
        ensures { IfOk result (λ laid. IsPassOf laid.0 laid.1 × (view laid.1 ≡ Some lent)) }
    {
        let (line, mut pass) = Line::ruled(alloc, 1)?;
        match line.try_push_as::<Lays>(&mut pass, Sheet::Blank(lent)) {
            Ok(()) => Ok((line, pass)),
            Err(_) => Err(NoMemory),
        }
    }

    /// The two sides of a line on which these entries are laid.
    fn both(alloc: Global, lent: LentStates<K, S>) -> Result<(Side<K, S>, Side<K, S>), NoMemory>
        ensures { IfOk result (λ both. (both.0 ≡ lent) × (both.1 ≡ lent)) }
    {
        let (line, mut pass) = Side::laid(alloc, lent)?;
        let other = line.another::<Both>(&mut pass);
        let Ok(line) = Arc::new(alloc, line) else {
            return Err(NoMemory);
        };
        let Ok(shared) = Arc::try_clone(&line) else {
            return Err(NoMemory);
        };
        Ok((
            Side { line, pass },
            Side {
                line: shared,
                pass: other,
            },
        ))
    }

    /// Takes the first sheet on the line, if there is one.
    pub(crate) fn take(&mut self) -> Option<Sheet<K, S>>
        ensures sheet { IfSome result (λ sheet. IsSheetOf K.Ord.cmp K.HasSpelling K.spelling
            S.HasSpelling S.spelling self.old sheet) }
        ensures same { self.new ≡ self.old }
    {
        self.line.try_pop_as::<Takes>(&mut self.pass)
    }

    /// Puts a sheet of the same entries there, unless one is there already.
    fn put(&mut self, sheet: Sheet<K, S>)
        requires { IsSheetOf K.Ord.cmp K.HasSpelling K.spelling S.HasSpelling S.spelling
            self.old sheet }
        ensures { self.new ≡ self.old }
    {
        let _ = self.line.try_push_as::<Puts>(&mut self.pass, sheet);
    }
}

/// Work on the next entries of a task's copy: it can be done by anyone, at any time. Contracts see
/// all entries of the copy.
#[derive(Drop)]
pub struct CopyWork<K: Codec + Ord, S: Codec> {
    side: Side<K, S>,
    lent: LentStates<K, S>,
    /// The key of the last entry that is spelled.
    last: Option<K>,
    /// How many entries are left to be spelled.
    left: usize,
    /// How many of them are spelled here.
    count: usize,
}

impl<K: Codec + Ord, S: Codec> Model for CopyWork<K, S> {
    ghost use Rattle.std.specs.Prelude.{◌≡◌, List};
    ghost use Rattle.operator_state.specs.Spelled.{ComesNext};

    ghost Value = { List (K × S) };

    ghost view = { λ w. w.lent };

    ghost invariant = { λ w. (w.side ≡ w.lent) × ComesNext K.Ord.cmp K.HasSpelling K.spelling
        S.HasSpelling S.spelling w.last w.left w.count w.lent };
}

impl<K: Codec + Ord, S: Codec> CopyWork<K, S> {
    /// Work on so many of these entries, of which so many are left behind a last key, and the
    /// task's side of the line. The sheet with the entries is taken here, so that nothing but what
    /// is written comes to the task.
    pub(crate) fn on(
        alloc: Global,
        lent: LentStates<K, S>,
        last: Option<K>,
        left: usize,
        count: usize,
    ) -> Result<(Side<K, S>, CopyWork<K, S>), NoMemory>
        requires { ComesNext K.Ord.cmp K.HasSpelling K.spelling S.HasSpelling S.spelling
            last left count lent }
        ensures { IfOk result (λ handed. (handed.0 ≡ lent) × (handed.1 ≡ lent)) }
    {
        let (side, mut other) = Side::both(alloc, lent)?;
        let Some(Sheet::Blank(lent)) = other.take() else {
            return Err(NoMemory);
        };
        let work = CopyWork {
            side: other,
            lent,
            last,
            left,
            count,
        };
        Ok((side, work))
    }

    /// How many entries are spelled.
    pub fn entries(&self) -> usize {
        self.count
    }

    /// Spells the entries, and leaves the bytes to their task. Where memory is refused none are
    /// left, and the task spells them itself.
    pub fn run(self, alloc: Global) {
        let CopyWork {
            mut side,
            lent,
            last,
            left,
            count,
        } = self;
        if let Ok(piece) = spell_piece(alloc, lent, &last, left, count) {
            side.put(Sheet::Written(piece));
        }
    }
}
