//! The text that a command reads.

use crate::refusal::Refusal;
use std::alloc::Global;
use std::io::{ErrorKind, Read};

/// A job or a script has at most so many bytes.
const MAX_BYTES: u64 = 16_777_216;

/// The bytes of the file, up to one more than a job or a script may have.
pub(crate) fn read_bytes<R: Read + Drop>(alloc: Global, file: R) -> Result<Vec<u8>, Refusal> {
    let mut bytes = Vec::new(alloc);
    let mut limited = file.take(MAX_BYTES + 1);
    match limited.read_to_end(&mut bytes) {
        Ok(_) => Ok(bytes),
        Err(e) if e.kind() == ErrorKind::OutOfMemory => Err(Refusal::Memory),
        Err(_) => Err(Refusal::Unreadable),
    }
}
