//! A row as the program prints it.

ghost use Rattle.std.specs.Prelude.{◌≡◌, ◌++◌, IfOk};
ghost use Rattle.json.specs.Print.{quoted};
ghost use Rattle.absflow_run.specs.RowText.{row_text};

use json::Writer;
use operators::Row;
use std::alloc::AllocError;

/// Puts a string last in the text, as JSON.
fn append_string(text: Vec<u8>, string: &str) -> Result<Vec<u8>, AllocError>
    ensures { IfOk result (λ t. t.items ≡ text.items ++ quoted string.now) }
{
    let mut out = Writer::new(text);
    out.string(string)?;
    Ok(out.into_inner())
}

/// Puts the row last in the text, as compact JSON: `{"k":"a","v":11}`.
pub fn append_row(mut text: Vec<u8>, row: &Row) -> Result<Vec<u8>, AllocError>
    ensures { IfOk result (λ t. t.items ≡ text.items ++ row_text row.now) }
{
    text.extend_from_slice(b"{\"k\":")?;
    let mut text = append_string(text, row.k.as_str())?;
    text.extend_from_slice(b",\"v\":")?;
    let mut digits = itoa::Buffer::new();
    text.extend_from_slice(digits.format(row.v).as_bytes())?;
    text.push(b'}')?;
    Ok(text)
}
