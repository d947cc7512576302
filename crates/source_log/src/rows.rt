//! Records that fit, by partition.

ghost use Rattle.std.specs.Prelude.{◌≡◌, ◌<◌, [], ◌∷◌, ◌++◌, Some, length, slice_get, slice_set, OnOk, OnErr, IfErr};
ghost use Rattle.source_log.specs.Partitions.{records_at};
ghost use Rattle.source_log.specs.Rows.{lists_of};

use crate::partitions::SourceFault;
use abs_codec::{Codec, NoMemory};
use std::alloc::Global;
use std::marker::Model;

type Lists<R> = Vec<Vec<R>>;

/// The records of each partition. They fit.
#[derive(Drop)]
pub(crate) struct Rows<R: Codec> {
    partitions: Lists<R>,
}

impl<R: Codec> Model for Rows<R> {
    ghost use Rattle.std.specs.Prelude.{List};
    ghost use Rattle.abs_codec.specs.Spelling.{Fits};
    ghost use Rattle.source_log.specs.Partitions.{AllFit};
    ghost use Rattle.source_log.specs.Rows.{lists_of};

    ghost Value = { List (List R) };

    ghost view = { λ r. lists_of r.partitions.items };

    ghost invariant = { λ r. AllFit (Fits R.HasSpelling R.spelling) (lists_of r.partitions.items) };
}

/// A record of a partition.
fn row_at<R>(partitions: &Lists<R>, partition: usize, offset: usize) -> &R
    requires partition { partition < length partitions.now.items }
    requires offset { offset < length (records_at (lists_of partitions.now.items) partition) }
    ensures { slice_get (records_at (lists_of partitions.now.items) partition) offset
        ≡ Some result.now }
{
    &partitions[partition][offset]
}

/// Puts a record last in a partition.
#[tactic(auto, using(crate::proofs::Appending::pushed_lists, crate::proofs::Appending::same_lists))]
fn push_row<R: Drop>(partitions: &mut Lists<R>, partition: usize, row: R) -> Result<(), SourceFault>
    requires there { partition < length partitions.old.items }
    ensures ok { OnOk result (lists_of partitions.new.items
        ≡ slice_set (lists_of partitions.old.items) partition
        (records_at (lists_of partitions.old.items) partition ++ row ∷ [])) }
    ensures err { OnErr result (lists_of partitions.new.items ≡ lists_of partitions.old.items) }
    ensures memory { IfErr result (λ f. f ≡ SourceFault.Memory) }
{
    match partitions[partition].push(row) {
        Ok(()) => Ok(()),
        Err(_) => Err(SourceFault::Memory),
    }
}

/// Puts records last in a partition, all of them or none.
#[tactic(auto, using(crate::proofs::Appending::pushed_lists, crate::proofs::Appending::same_lists))]
fn push_rows<R: Drop>(
    partitions: &mut Lists<R>,
    partition: usize,
    mut rows: Vec<R>,
) -> Result<(), SourceFault>
    requires there { partition < length partitions.old.items }
    ensures ok { OnOk result (lists_of partitions.new.items
        ≡ slice_set (lists_of partitions.old.items) partition
        (records_at (lists_of partitions.old.items) partition ++ rows.items)) }
    ensures err { OnErr result (lists_of partitions.new.items ≡ lists_of partitions.old.items) }
    ensures memory { IfErr result (λ f. f ≡ SourceFault.Memory) }
{
    match partitions[partition].append(&mut rows) {
        Ok(()) => Ok(()),
        Err(_) => Err(SourceFault::Memory),
    }
}

/// Puts more partitions behind these, all of them or none.
fn append_lists<R: Drop>(partitions: &mut Lists<R>, mut more: Lists<R>) -> Result<(), SourceFault>
    ensures ok { OnOk result (lists_of partitions.new.items
        ≡ lists_of partitions.old.items ++ lists_of more.items) }
    ensures err { OnErr result (lists_of partitions.new.items ≡ lists_of partitions.old.items) }
    ensures memory { IfErr result (λ f. f ≡ SourceFault.Memory) }
{
    match partitions.append(&mut more) {
        Ok(()) => Ok(()),
        Err(_) => Err(SourceFault::Memory),
    }
}

impl<R: Codec> Rows<R> {
    ghost use Rattle.std.specs.Prelude.{◌≡◌, ◌<◌, ◌≤◌, [], ◌∷◌, ◌++◌, Some, length, replicate, slice_get, slice_set, All, OnOk, OnErr, IfOk, IfErr, IfSome, IfNone};
    ghost use Rattle.abs_codec.specs.Spelling.{Fits};
    ghost use Rattle.source_log.specs.Partitions.{AllFit, records_at};

    /// Partitions with no records.
    pub(crate) fn new(alloc: Global, count: u32) -> Result<Rows<R>, NoMemory>
        ensures { IfOk result (λ rows. rows ≡ replicate count []) }
    {
        let mut partitions = Vec::new(alloc);
        for _ in 0..count {
            partitions.push(Vec::new(alloc))?;
        }
        Ok(Rows { partitions })
    }

    /// How many partitions there are.
    pub(crate) fn count(&self) -> usize
        ensures count { result ≡ length self.now }
        ensures fit { AllFit (Fits R.HasSpelling R.spelling) self.now }
    {
        self.partitions.len()
    }

    /// How many records a partition has, if there is such a partition.
    pub(crate) fn len(&self, partition: usize) -> Option<usize>
        ensures some { IfSome result (λ n. (partition < length self.now)
            × (n ≡ length (records_at self.now partition))) }
        ensures none { IfNone result (length self.now ≤ partition) }
    {
        match self.partitions.get(partition) {
            Some(rows) => Some(rows.len()),
            None => None,
        }
    }

    /// A copy of a record.
    pub(crate) fn copy(&self, partition: usize, offset: usize) -> Result<R, SourceFault>
        requires partition { partition < length self.now }
        requires offset { offset < length (records_at self.now partition) }
        ensures ok { IfOk result (λ row. slice_get (records_at self.now partition)
            offset ≡ Some row) }
        ensures fits { IfOk result (Fits R.HasSpelling R.spelling) }
        ensures memory { IfErr result (λ f. f ≡ SourceFault.Memory) }
    {
        match row_at(&self.partitions, partition, offset).duplicate() {
            Ok(row) => Ok(row),
            Err(_) => Err(SourceFault::Memory),
        }
    }

    /// Puts a record last in a partition.
    pub(crate) fn push(&mut self, partition: usize, row: R) -> Result<(), SourceFault>
        requires partition { partition < length self.old }
        requires fits { Fits R.HasSpelling R.spelling row }
        ensures ok { OnOk result (self.new ≡ slice_set self.old partition
            (records_at self.old partition ++ row ∷ [])) }
        ensures err { OnErr result (self.new ≡ self.old) }
        ensures memory { IfErr result (λ f. f ≡ SourceFault.Memory) }
    {
        push_row(&mut self.partitions, partition, row)
    }

    /// Puts records last in a partition, all of them or none.
    pub(crate) fn push_all(&mut self, partition: usize, rows: Vec<R>) -> Result<(), SourceFault>
        requires partition { partition < length self.old }
        requires fits { All (Fits R.HasSpelling R.spelling) rows.items }
        ensures ok { OnOk result (self.new ≡ slice_set self.old partition
            (records_at self.old partition ++ rows.items)) }
        ensures err { OnErr result (self.new ≡ self.old) }
        ensures memory { IfErr result (λ f. f ≡ SourceFault.Memory) }
    {
        push_rows(&mut self.partitions, partition, rows)
    }
    /// Puts more partitions behind these, all of them or none.
    pub(crate) fn append(&mut self, more: Rows<R>) -> Result<(), SourceFault>
        ensures ok { OnOk result (self.new ≡ self.old ++ more) }
        ensures err { OnErr result (self.new ≡ self.old) }
        ensures memory { IfErr result (λ f. f ≡ SourceFault.Memory) }
    {
        append_lists(&mut self.partitions, more.partitions)
    }
}
