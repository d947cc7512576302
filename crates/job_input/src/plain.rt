//! Lines in the form that rows are printed in, which are read with no JSON value between.

ghost use Rattle.std.specs.Prelude.{◌≡◌, ◌≤◌, ◌++◌, true, All, IfSome, IsUtf8, FitsSigned, length, take};
ghost use Rattle.std.specs.Fmt.{signed_decimal};
ghost use Rattle.std.specs.Int.{w64};
ghost use Rattle.job_input.specs.Lines.{row_of_line};
ghost use Rattle.job_input.specs.Plain.{is_plain, IsPlainLine};
ghost use Rattle.script_file.specs.Rows.{row_with};

use crate::number::short_number;
use crate::rows::is_blank;
use itoa::Buffer;

/// Whether the byte means itself in a JSON string.
fn is_plain(byte: u8) -> bool
    ensures { result ≡ is_plain byte }
{
    byte != b'"' && byte != b'\\' && byte >= b' '
}

/// How many bytes at the front mean themselves in a JSON string.
fn plain_len(bytes: &[u8]) -> usize
    ensures bound { result ≤ length bytes.now }
    ensures plain { All (λ x. is_plain x ≡ true) (take result bytes.now) }
{
    let mut i = 0;
    while i < bytes.len() {
        if !is_plain(bytes[i]) {
            return i;
        }
        i += 1;
    }
    i
}

/// How many bytes at the front may stand in a whole number.
fn number_len(bytes: &[u8]) -> usize
    ensures { result ≤ length bytes.now }
{
    let mut i = 0;
    while i < bytes.len() {
        if bytes[i] != b'-' && !bytes[i].is_ascii_digit() {
            return i;
        }
        i += 1;
    }
    i
}

/// What stands behind the front, where the text begins with it.
fn behind<'a>(text: &'a [u8], front: &[u8]) -> Option<&'a [u8]>
    ensures { IfSome result (λ rest. text.now ≡ front.now ++ rest.now) }
{
    text.strip_prefix(front)
}

/// The number of 64 bits that is printed so.
#[inline(always)]
fn printed_number(text: &[u8]) -> Option<i64>
    ensures printed { IfSome result (λ z. FitsSigned w64 z × (text.now ≡ signed_decimal z)) }
    ensures utf8 { IfSome result (λ _. IsUtf8 text.now) }
{
    if let Some(n) = short_number(text) {
        return Some(n);
    }
    let Ok(text) = str::from_utf8(text) else {
        return None;
    };
    let Ok(n) = text.parse::<i64>() else {
        return None;
    };
    let mut buffer = Buffer::new();
    if buffer.format(n) == text {
        Some(n)
    } else {
        None
    }
}

/// The parts of a line `{"k":"..","v":N}`.
#[inline(always)]
fn parts_of_line<'a>(line: &'a [u8]) -> Option<(&'a str, i64)>
    ensures { IfSome result (λ row. IsPlainLine line.now row.0.now row.1) }
{
    let rest = behind(line, b"{\"k\":\"")?;
    let (key, rest) = rest.split_at(plain_len(rest));
    let rest = behind(rest, b"\",\"v\":")?;
    let (number, rest) = rest.split_at(number_len(rest));
    let rest = behind(rest, b"}")?;
    if !is_blank(rest) {
        return None;
    }
    let v = printed_number(number)?;
    match str::from_utf8(key) {
        Ok(key) => Some((key, v)),
        Err(_) => None,
    }
}

/// The key and the number of a line that has no spaces between its parts and no escapes. None:
/// it may still be a row.
#[inline(always)]
pub(crate) fn plain_row<'a>(line: &'a [u8]) -> Option<(&'a str, i64)>
    ensures { IfSome result (λ row. row_of_line line.now ≡ row_with row.0.now row.1) }
{
    parts_of_line(line)
}
