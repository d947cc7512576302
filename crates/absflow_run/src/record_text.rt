//! A committed record as the program prints it.

ghost use Rattle.std.specs.Prelude.{◌≡◌, ℕ, List, [], ◌∷◌, ◌++◌, true, length, IfSome, IsTrue, OnOk};
ghost use Rattle.text_parts.specs.Lines.{AreLines};
ghost use Rattle.absflow_run.specs.Printed.{IsRecordLine};
ghost use Rattle.absflow_run.specs.RecordText.{IsPlainRecord, PrintsRecord, are_plain, plain_line};
ghost use Rattle.absflow_run.specs.RowText.{row_text};

use crate::row_text::append_row;
use abs_codec::{Bytes, Codec, CodecFault, decode_all};
use operators::{KEY_LIMIT, Row};
use std::alloc::{AllocError, Global};

/// Whether each byte is a character of ASCII that means itself in a JSON string.
fn are_plain(bytes: &[u8]) -> bool
    ensures { result ≡ are_plain bytes.now }
{
    bytes.iter().all(|byte| *byte >= b' ' && *byte < 127 && *byte != b'"' && *byte != b'\\')
}

/// The key and the value of the row that a record spells, where the key needs no escapes.
fn plain_parts(alloc: Global, spelled: &[u8]) -> Option<(&[u8], i64)>
    ensures { IfSome result (λ row. IsPlainRecord spelled.now row.0.now row.1) }
{
    let Ok((len, start)) = u32::decode(alloc, spelled, 0) else {
        return None;
    };
    let (key, value) = spelled[start..].split_at_checked(len as usize)?;
    let Ok(v) = decode_all::<i64>(alloc, value) else {
        return None;
    };
    if len > KEY_LIMIT || !are_plain(key) {
        return None;
    }
    Some((key, v))
}

/// Puts the line of a row whose key needs no escapes last in the text.
fn append_plain(text: &mut Vec<u8>, key: &[u8], v: i64) -> Result<(), AllocError>
    ensures { OnOk result (text.new.items ≡ text.old.items ++ plain_line key.now v) }
{
    text.extend_from_slice(b"{\"k\":\"")?;
    text.extend_from_slice(key)?;
    text.extend_from_slice(b"\",\"v\":")?;
    let mut digits = itoa::Buffer::new();
    text.extend_from_slice(digits.format(v).as_bytes())?;
    text.extend_from_slice(b"}\n")
}

/// Puts the line of a row last in the text, whatever its key has.
fn append_escaped(alloc: Global, text: &mut Vec<u8>, row: &Row) -> Result<(), AllocError>
    ensures { OnOk result (text.new.items ≡ text.old.items ++ (row_text row.now ++ 10 ∷ [])) }
{
    let line = append_row(Vec::new(alloc), row)?;
    text.extend_from_slice(&line)?;
    text.extend_from_slice(b"\n")
}

/// Puts the line of the row that the record spells last in the text, or a part of it at `Err`.
fn append_line(alloc: Global, text: &mut Vec<u8>, spelled: &[u8]) -> Result<(), CodecFault>
    ensures { OnOk result (PrintsRecord spelled.now text.old.items text.new.items) }
{
    if let Some((key, v)) = plain_parts(alloc, spelled) {
        append_plain(text, key, v)?;
        return Ok(());
    }
    let row: Row = decode_all(alloc, spelled)?;
    append_escaped(alloc, text, &row)?;
    Ok(())
}

/// Puts the line of the row that the record spells last in the text. No part of it is left there
/// at `Err`.
pub fn append_record(alloc: Global, text: &mut Vec<u8>, spelled: &[u8]) -> Result<(), CodecFault>
    ensures { OnOk result (PrintsRecord spelled.now text.old.items text.new.items) }
{
    let len = text.len();
    let put = append_line(alloc, text, spelled);
    if put.is_err() {
        text.truncate(len);
    }
    put
}

/// Puts the lines of the rows that the records spell last in the text, one after the other. Those
/// before the one that is not put are left there at `Err`.
pub(crate) fn append_records(
    alloc: Global,
    text: &mut Vec<u8>,
    records: &[Bytes],
) -> Result<(), CodecFault>
    ensures { OnOk result ((bytes : List ℕ)
        × AreLines (IsRecordLine records.now) 0 (length records.now) bytes
        × (text.new.items ≡ text.old.items ++ bytes)) }
{
    for record in records {
        append_record(alloc, text, record.as_slice())?;
    }
    Ok(())
}
