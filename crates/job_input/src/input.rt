//! A file that was named.

ghost use Rattle.std.specs.Prelude.{◌≡◌, ◌+◌, take, IfOk, IfSome, IsOkAnd};
ghost use Rattle.std.specs.Io.Buffered.{reader_remaining};

use crate::fault::{InputFault, LineFault, fault_at};
use std::alloc::Global;
use std::io;
use std::io::{BufReader, ErrorKind, Read};

/// A file by its name, and what opening it came to.
#[derive(Drop)]
pub struct Input<'a, R> {
    pub name: &'a str,
    pub file: io::Result<R>,
}

/// A job file has at most so many bytes.
const MAX_JOB_BYTES: u64 = 16_777_216;

/// So many bytes of a file are read at a time.
const BUFFER: usize = 1_048_576;

/// What a reader's error is to a line.
pub(crate) fn line_fault(error: &io::Error) -> LineFault {
    if error.kind() == ErrorKind::OutOfMemory {
        LineFault::Memory
    } else {
        LineFault::Unreadable
    }
}

/// The file's bytes, up to one more than a job may have.
fn job_bytes<R: Read + Drop>(alloc: Global, file: io::Result<R>) -> io::Result<Vec<u8>>
    ensures { IfOk result (λ bytes. IsOkAnd file (λ reader. IfSome (R.remaining reader)
        (λ all. bytes.items ≡ take (MAX_JOB_BYTES + 1) all))) }
{
    let mut bytes = Vec::new(alloc);
    file?.take(MAX_JOB_BYTES + 1).read_to_end(&mut bytes)?;
    Ok(bytes)
}

impl<'a, R: Read + Drop> Input<'a, R> {
    /// The bytes of a job file, up to one more than it may have.
    pub(crate) fn into_bytes(self, alloc: Global) -> Result<Vec<u8>, InputFault<'a>>
        ensures { IfOk result (λ bytes. IsOkAnd self.entry.file (λ file. IfSome (R.remaining file)
            (λ all. bytes.items ≡ take (MAX_JOB_BYTES + 1) all))) }
    {
        let Input { name, file } = self;
        match job_bytes(alloc, file) {
            Ok(bytes) => Ok(bytes),
            Err(error) => Err(fault_at(line_fault(&error), name, 0, 0)),
        }
    }

    /// The file behind a buffer, with all its bytes still to be read.
    pub(crate) fn into_buffered(self, alloc: Global) -> io::Result<BufReader<R>>
        ensures { IfOk result (λ reader. IsOkAnd self.entry.file
            (λ file. reader_remaining R.remaining reader ≡ R.remaining file)) }
    {
        let Input { file, .. } = self;
        BufReader::with_capacity(alloc, BUFFER, file?)
    }
}
