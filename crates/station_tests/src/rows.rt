//! Rows as lines of an input, and as readers read them.

use abs_codec::decode_all;
use operators::Row;
use std::alloc::{AllocError, Global};
use std::test::Fail;

/// The rows of keys `k0`, `k1` and so on, each with its number as its value, as an input's lines.
pub(crate) fn input_of(alloc: Global, count: u64) -> Result<String, AllocError> {
    let mut text = String::new(alloc);
    for number in 0..count {
        text.push_str(&format!(in alloc; "{{\"k\":\"k{number}\",\"v\":{number}}}\n")?)?;
    }
    Ok(text)
}

/// What a job that adds 10 makes of them, a line for each: the key, a space, the value.
pub(crate) fn ten_more(alloc: Global, count: u64) -> Result<String, AllocError> {
    let mut text = String::new(alloc);
    for number in 0..count {
        let value = number.saturating_add(10);
        text.push_str(&format!(in alloc; "k{number} {value}\n")?)?;
    }
    Ok(text)
}

/// The rows that a reader has read, a line for each.
pub(crate) fn text_of(alloc: Global, rows: &[Vec<u8>]) -> Result<String, Fail> {
    let mut text = String::new(alloc);
    for row in rows {
        let row: Row = decode_all(alloc, row)?;
        text.push_str(&format!(in alloc; "{} {}\n", row.k.as_str(), row.v)?)?;
    }
    Ok(text)
}
