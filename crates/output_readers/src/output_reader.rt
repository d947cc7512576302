//! The readers.
ghost use Rattle.std.specs.Prelude.{◌≡◌, ◌≢◌, ℕ, ◌<◌, [], map, length, replicate, slice_set, IfOk, OnErr};
ghost use Rattle.published_lists.specs.Beginnings.{IsBeginning, longer};
ghost use Rattle.published_lists.specs.Rows.{rows_of, EachBegins};
ghost use Rattle.published_lists.specs.Editions.{Edition as Named, Follows};
ghost use Rattle.output_readers.specs.Seeing.{IsOpening, view_of};

use core::mem::replace_with;
use published_lists::{Edition, OutputFault, Told, look};
use std::alloc::{AllocError, Global};
use std::marker::Model;

/// Reads the published lists, and never waits.
#[derive(Drop)]
pub struct OutputReader {
    // Its place, with what its last look found, or more.
    place: Told,
    // The last of what it was told.
    told: Edition,
    // How many rows of each subtask it has read.
    read: Vec<usize>,
    alloc: Global,
}

impl Model for OutputReader {
    ghost use Rattle.published_lists.specs.Rows.{each_take};
    ghost use Rattle.output_readers.specs.Seeing.{Knowledge, IsReading};

    ghost Value = { Knowledge };

    ghost view = { λ r. record {
      history = r.place.history;
      found = r.place.lists;
      read = each_take r.read.items r.place.lists;
      told = r.told.lists;
    } };

    ghost invariant = { λ r. IsReading r.told r.place r.read.items };
}

// `look`, by a name of this crate.
fn looked(place: Told, ask: (Global, usize)) -> (Told, Result<Vec<Vec<u8>>, OutputFault>)
    ensures grows { Follows place result.0 }
    ensures rows { IfOk result.1 (λ rows.
        map (λ row. row.items) rows.items ≡ rows_of result.0.lists ask.1) }
{
    look(place, ask)
}

// Of two editions of one history the one that follows the other.
fn later(old: &Edition, new: &Edition) -> Edition
    requires { new.now.history ≡ old.now.history }
    ensures lists { (s : ℕ) → rows_of result.lists s
        ≡ longer (rows_of old.now.lists s) (rows_of new.now.lists s) }
    ensures follows { (x : Named) → Follows old.now x → Follows new.now x → Follows result x }
{
    if new.begins(old) {
        return old.again();
    }
    new.again()
}

// Of two places of one history the one that knows all that the other does.
fn sit(place: Told, told: Told) -> (Told, ())
    requires { told.history ≡ place.history }
    ensures grows { Follows place result.0 }
    ensures told { Follows told result.0 }
{
    if place.edition().begins(told.edition()) {
        return (told, ());
    }
    (place, ())
}

/// Notes how many rows of a subtask there are.
pub(crate) fn note(counts: &mut [usize], subtask: usize, rows: usize)
    ensures { counts.new ≡ slice_set counts.old subtask rows }
{
    if subtask < counts.len() {
        counts[subtask] = rows;
    }
}

impl OutputReader {
    // A reader that was told of empty lists of so many subtasks.
    pub(crate) fn new(
        alloc: Global,
        subtasks: usize,
        place: Told,
    ) -> Result<OutputReader, AllocError>
        requires { place.lists ≡ replicate subtasks [] }
        ensures { IfOk result (IsOpening place.history subtasks) }
    {
        let read = Vec::from_elem(alloc, 0usize, subtasks)?;
        Ok(OutputReader {
            told: place.edition().again(),
            place,
            read,
            alloc,
        })
    }

    /// The rows of a subtask, in order; none where there is no such subtask. They begin with all
    /// that this reader has read of it, or was told of.
    pub fn read(&mut self, subtask: usize) -> Result<Vec<Vec<u8>>, OutputFault>
        ensures begins { IfOk result (λ rows.
            IsBeginning (view_of self.old subtask) (map (λ row. row.items) rows.items)) }
        ensures published { IfOk result (λ rows.
            map (λ row. row.items) rows.items ≡ rows_of self.new.found subtask) }
        ensures mine { IfOk result (λ rows. subtask < length self.old.read
            → view_of self.new subtask ≡ map (λ row. row.items) rows.items) }
        ensures others { (s : ℕ) → s ≢ subtask → view_of self.new s ≡ view_of self.old s }
        ensures err { OnErr result ((s : ℕ) → view_of self.new s ≡ view_of self.old s) }
        ensures grows { EachBegins self.old.found self.new.found }
        ensures subtasks { length self.new.read ≡ length self.old.read }
        ensures history { self.new.history ≡ self.old.history }
    {
        let rows = replace_with(&mut self.place, (self.alloc, subtask), looked)?;
        note(self.read.as_mut_slice(), subtask, rows.len());
        Ok(rows)
    }

    /// Takes in what was published when the writer of this reader told it.
    pub fn learn(&mut self, told: Told)
        requires { told.history ≡ self.old.history }
        ensures view { (s : ℕ) →
            view_of self.new s ≡ longer (view_of self.old s) (rows_of told.lists s) }
        ensures grows { EachBegins self.old.found self.new.found }
        ensures subtasks { length self.new.read ≡ length self.old.read }
        ensures history { self.new.history ≡ self.old.history }
    {
        self.told = later(&self.told, told.edition());
        replace_with(&mut self.place, told, sit);
    }
}
