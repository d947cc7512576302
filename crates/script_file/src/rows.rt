//! The rows of the partitions.

ghost use Rattle.std.specs.Prelude.{◌≡◌, [], map};
ghost use Rattle.script_file.specs.Faults.{FindsItem, Gives};
ghost use Rattle.script_file.specs.Rows.{row_with, row_of, row_at, rows_at};
ghost use Rattle.script_file.specs.Lists.{each_after};
ghost use Rattle.serde_json.specs.View.{view, items_view};

use crate::fault::{ItemFault, ScriptFault};
use abs_codec::Text;
use json_members::{has_only, text_at, whole_at};
use operators::{Row, RowKey};
use serde_json::Value;
use std::alloc::Global;
use std::marker::Model;

/// A row that fits: its key has at most 1,024 bytes. Contracts see it as the row.
#[derive(Debug, Drop)]
pub struct FittingRow {
    row: Row,
}

impl Model for FittingRow {
    ghost use Rattle.abs_codec.specs.Spelling.{Fits};
    ghost use Rattle.operators.specs.RowSpelling.{RowIsSpelled, row_spelling};
    ghost use Rattle.operators.specs.declared.row.Row.{Row};

    ghost Value = { Row };

    ghost view = { λ f. f.row };

    ghost invariant = { λ f. Fits RowIsSpelled row_spelling f.row };
}

impl FittingRow {
    ghost use Rattle.std.specs.Prelude.{◌≡◌};
    ghost use Rattle.abs_codec.specs.Spelling.{Fits};
    ghost use Rattle.operators.specs.RowSpelling.{RowIsSpelled, row_spelling};

    /// The row itself.
    pub fn into_row(self) -> Row
        ensures same { result ≡ self }
        ensures fits { Fits RowIsSpelled row_spelling result }
    {
        let FittingRow { row } = self;
        row
    }
}

/// The row of a key that is short enough.
pub(crate) fn fitting_row(alloc: Global, key: &str, v: i64) -> Result<FittingRow, ItemFault>
    ensures { FindsItem (λ r. r) result (row_with key.now v) }
{
    let key = RowKey::new(Text::from_str(alloc, key)?).ok_or(ItemFault::Bad)?;
    Ok(FittingRow {
        row: Row { k: key.text, v },
    })
}

/// The row that an object `{"k": text, "v": number}` is.
#[tactic(auto, unfolding(crate::specs::Rows::row_of))]
pub fn read_row(alloc: Global, value: &Value) -> Result<FittingRow, ItemFault>
    ensures { FindsItem (λ r. r) result (row_of (view value.now)) }
{
    let key = text_at(value, "k").ok_or(ItemFault::Bad)?;
    let v = whole_at(value, "v").ok_or(ItemFault::Bad)?;
    if !has_only(value, &["k", "v"]) {
        return Err(ItemFault::Bad);
    }
    fitting_row(alloc, key, v)
}

/// The row of this number in its partition.
fn row_at(
    alloc: Global,
    partition: usize,
    number: usize,
    value: &Value,
) -> Result<FittingRow, ScriptFault>
    ensures { Gives (λ r. r) result (row_at partition number (view value.now)) }
{
    match read_row(alloc, value) {
        Ok(row) => Ok(row),
        Err(ItemFault::Bad) => Err(ScriptFault::BadRow {
            partition,
            row: number,
        }),
        Err(ItemFault::Memory) => Err(ScriptFault::Memory),
    }
}

/// The rows of the partition of this number.
fn rows(alloc: Global, partition: usize, items: &[Value]) -> Result<Vec<FittingRow>, ScriptFault>
    ensures { Gives (λ v. v.items) result (each_after (row_at partition) []
        (items_view items.now)) }
{
    let mut found = Vec::new(alloc);
    for item in items {
        let row = row_at(alloc, partition, found.len(), item)?;
        found.push(row)?;
    }
    Ok(found)
}

fn rows_at(alloc: Global, partition: usize, value: &Value) -> Result<Vec<FittingRow>, ScriptFault>
    ensures { Gives (λ v. v.items) result (rows_at partition (view value.now)) }
{
    match value.as_array() {
        Some(items) => rows(alloc, partition, items),
        None => Err(ScriptFault::BadField),
    }
}

/// The rows of each partition, or the first that is none.
pub fn partitions(alloc: Global, items: &[Value]) -> Result<Vec<Vec<FittingRow>>, ScriptFault>
    ensures { Gives (λ v. map (λ rows. rows.items) v.items) result
        (each_after rows_at [] (items_view items.now)) }
{
    let mut found = Vec::new(alloc);
    for item in items {
        let rows = rows_at(alloc, found.len(), item)?;
        found.push(rows)?;
    }
    Ok(found)
}
