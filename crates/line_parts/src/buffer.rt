//! What is read of a file and not taken yet.

ghost use Rattle.std.specs.Prelude.{◌≡◌, ◌≢◌, ◌≤◌, ◌<◌, ℕ, false, length, take, drop, slice_index, Ok, OnOk, OnSome};
ghost use Rattle.std.specs.Io.{IsEmptyOrEndsWith};
ghost use Rattle.std.specs.Io.KnownBytes.{Keeps, IsAtEnd, prepend_known};

use memchr::memrchr;
use std::alloc::{AllocError, Global};
use std::io;
use std::io::{BufRead, ErrorKind};
use std::mem::swap;

/// The bytes of a file that were read and not taken yet, and what was taken last.
#[derive(Drop)]
pub struct LineBuffer {
    /// The bytes that were not taken, from the start of a line on.
    pub text: Vec<u8>,
    /// The bytes that were taken last.
    pub taken: Vec<u8>,
}

/// Puts what the reader has ready last in the text. False: it is at its end.
fn append_ready<F: BufRead>(file: &mut F, text: &mut Vec<u8>) -> io::Result<bool>
    ensures bytes { OnOk result (Keeps (prepend_known text.old.items (F.remaining file.old))
        (prepend_known text.new.items (F.remaining file.new))) }
    ensures end { result ≡ Ok false
        → OnSome (F.remaining file.old) (IsAtEnd (F.remaining file.new)) }
{
    let ready = match file.fill_buf() {
        Ok(ready) => ready,
        Err(error) => {
            return if error.kind() == ErrorKind::Interrupted {
                Ok(true)
            } else {
                Err(error)
            };
        }
    };
    let count = ready.len();
    text.extend_from_slice(ready)?;
    file.consume(count);
    Ok(count > 0)
}

/// Reads on into the text, once or more, until so many bytes are there. False: the file has no
/// more.
pub fn fill<F: BufRead>(file: &mut F, text: &mut Vec<u8>, least: usize) -> io::Result<bool>
    ensures bytes { OnOk result (Keeps (prepend_known text.old.items (F.remaining file.old))
        (prepend_known text.new.items (F.remaining file.new))) }
    ensures end { result ≡ Ok false
        → OnSome (F.remaining file.old) (IsAtEnd (F.remaining file.new)) }
{
    for _ in 0..u64::MAX {
        if !append_ready(file, text)? {
            return Ok(false);
        }
        if text.len() >= least {
            return Ok(true);
        }
    }
    Ok(true)
}

impl LineBuffer {
    /// A buffer with no bytes yet.
    pub fn new(alloc: Global) -> LineBuffer
        ensures text { length result.text.items ≡ 0 }
    {
        LineBuffer {
            text: Vec::new(alloc),
            taken: Vec::new(alloc),
        }
    }

    /// How many bytes the lines have that are there with their ends.
    pub fn whole_len(&self) -> usize
        ensures bound { result ≤ length self.now.text.items }
        ensures end { IsEmptyOrEndsWith (take result self.now.text.items) 10 }
        ensures rest { (k : ℕ) → result ≤ k → k < length self.now.text.items
            → slice_index self.now.text.items k ≢ 10 }
    {
        match memrchr(b'\n', &self.text) {
            Some(at) => at + 1,
            None => 0,
        }
    }

    /// Takes so many bytes from the front, in place of those that were taken before.
    pub fn take_front(&mut self, count: usize) -> Result<(), AllocError>
        requires { count ≤ length self.old.text.items }
        ensures taken { OnOk result (self.new.taken.items ≡ take count self.old.text.items) }
        ensures text { OnOk result (self.new.text.items ≡ drop count self.old.text.items) }
    {
        self.taken.clear();
        self.taken.extend_from_slice(&self.text[count..])?;
        swap(&mut self.text, &mut self.taken);
        self.taken.truncate(count);
        Ok(())
    }
}
