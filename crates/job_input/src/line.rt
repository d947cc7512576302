//! The lines of an input.

ghost use Rattle.std.specs.Prelude.{◌≡◌, ◌≢◌, ◌<◌, ◌≤◌, ◌-◌, true, false, Ok, All, IfOk, IfSome, OnOk, OnSome, length, nat_lt, take};
ghost use Rattle.std.specs.Io.{StartsWith, StopsAt, IsEmptyOrEndsWith, appended_bytes};
ghost use Rattle.std.specs.Io.KnownBytes.{Consumes, IsAtEnd};
ghost use Rattle.std.specs.Io.BufRead.{take_through, DropsThrough};

use crate::fault::LineFault;
use crate::input::line_fault;
use memchr::memchr;
use std::io;
use std::io::{BufRead, ErrorKind};

/// A line has at most so many bytes before its end.
pub const MAX_LINE_BYTES: u64 = 1_048_576;

/// The length up to the first end of a line and with it, or the whole length.
fn len_through_end(bytes: &[u8]) -> usize
    ensures bound { result ≤ length bytes.now }
    ensures some { 0 < length bytes.now → 0 < result }
    ensures before { All (λ x. x ≢ 10) (take (result - 1) bytes.now) }
{
    match memchr(b'\n', bytes) {
        Some(at) => at + 1,
        None => bytes.len(),
    }
}

/// Moves what the reader has ready into the line, through the line's end. True: the line is whole.
fn append_ready<R: BufRead>(file: &mut R, line: &mut Vec<u8>) -> io::Result<bool>
    ensures appends { StartsWith line.new.items line.old.items }
    ensures stops { StopsAt (appended_bytes line.old.items line.new.items) 10 }
    ensures bytes { Consumes (R.remaining file.old) (R.remaining file.new)
        (appended_bytes line.old.items line.new.items) }
    ensures end { result ≡ Ok true → length (appended_bytes line.old.items line.new.items) ≡ 0
        → OnSome (R.remaining file.old) (IsAtEnd (R.remaining file.new)) }
    ensures no_end_unless_done { result ≢ Ok true
        → All (λ x. x ≢ 10) (appended_bytes line.old.items line.new.items) }
    ensures done_at_end { result ≡ Ok true → IsEmptyOrEndsWith
        (appended_bytes line.old.items line.new.items) 10 }
{
    let available = match file.fill_buf() {
        Ok(available) => available,
        Err(error) => {
            return if error.kind() == ErrorKind::Interrupted {
                Ok(false)
            } else {
                Err(error)
            };
        }
    };
    let end = len_through_end(available);
    line.extend_from_slice(&available[..end])?;
    let is_done = end == 0 || available[end - 1] == b'\n';
    file.consume(end);
    Ok(is_done)
}

/// Whether the line goes on past the bytes that one may have.
pub(crate) fn is_too_long(line: &[u8]) -> bool {
    line.len() as u64 > MAX_LINE_BYTES
        && (line.len() as u64 > MAX_LINE_BYTES + 1 || line.last() != Some(&b'\n'))
}

/// Reads the file's next line into the buffer, in place of what stood there, with its end where it
/// has one. False: the file has no more.
pub fn next_line<R: BufRead>(file: &mut R, line: &mut Vec<u8>) -> Result<bool, LineFault>
    // Where the reader's bytes are known, these are those up to the first end of a line.
    ensures line { OnOk result (IfSome (R.remaining file.old)
        (λ xs. line.new.items ≡ take_through 10 xs)) }
    ensures rest { OnOk result (DropsThrough (R.remaining file.old) (R.remaining file.new) 10) }
    ensures end { result ≡ Ok false → length line.new.items ≡ 0 }
    ensures more { IfOk result (λ more. more ≡ nat_lt 0 (length line.new.items)) }
{
    line.clear();
    for _ in 0..u64::MAX {
        let is_whole = match append_ready(file, line) {
            Ok(is_whole) => is_whole,
            Err(error) => return Err(line_fault(&error)),
        };
        if is_too_long(line) {
            return Err(LineFault::BadRow);
        }
        if is_whole {
            return Ok(!line.is_empty());
        }
    }
    Err(LineFault::Unreadable)
}
