//! Jobs, their rows, and what they come to.

use std::alloc::{AllocError, Global};

/// A source, an operator that adds 10, and a sink.
pub(crate) const LINE: &str =
    r#"{"vertices":[{"name":"s","kind":"source"},{"name":"plus","kind":"add","n":10},{"name":"out","kind":"sink"}],"edges":[{"from":"s","to":"plus"},{"from":"plus","to":"out"}]}"#;

/// A loop that takes one from each row until it is 0.
pub(crate) const LOOP: &str =
    r#"{"vertices":[{"name":"s","kind":"source"},{"name":"d","kind":"loop_down"},{"name":"out","kind":"sink"}],"edges":[{"from":"s","to":"d"},{"from":"d","port":1,"to":"d","back":true},{"from":"d","port":0,"to":"out"}]}"#;

/// A count of each key in four tasks, each with a sink of its own.
pub(crate) const COUNT: &str =
    r#"{"vertices":[{"name":"s","kind":"source"},{"name":"c","kind":"count","parallelism":4},{"name":"out","kind":"sink","parallelism":4}],"edges":[{"from":"s","to":"c","route":"hash"},{"from":"c","to":"out"}]}"#;

/// Two lines side by side, each with one row.
pub(crate) const TWO_LINES: &str =
    r#"{"vertices":[{"name":"s","kind":"source","parallelism":2},{"name":"f","kind":"add","n":1,"parallelism":2},{"name":"out","kind":"sink","parallelism":2}],"edges":[{"from":"s","to":"f"},{"from":"f","to":"out"}]}"#;

/// The rows `k0` to `k99`, each of this value and more by its number times a step.
pub(crate) fn rows(alloc: Global, first: u64, step: u64) -> Result<String, AllocError> {
    let mut text = String::new(alloc);
    for number in 0..100u64 {
        let v = first.wrapping_add(number.wrapping_mul(step));
        text.push_str(&format!(in alloc; "{{\"k\":\"k{number}\",\"v\":{v}}}\n")?)?;
    }
    Ok(text)
}

/// Ten rows of each of ten keys, in turn.
pub(crate) fn rows_of_ten_keys(alloc: Global) -> Result<String, AllocError> {
    let mut text = String::new(alloc);
    for number in 0..100u64 {
        let key = number % 10;
        text.push_str(&format!(in alloc; "{{\"k\":\"k{key}\",\"v\":{number}}}\n")?)?;
    }
    Ok(text)
}

/// The counts of ten rows of each of ten keys: 1 to 10 for each key.
pub(crate) fn counts_of_ten_keys(alloc: Global) -> Result<String, AllocError> {
    let mut text = String::new(alloc);
    for number in 0..100u64 {
        let (key, count) = (number % 10, number / 10 + 1);
        text.push_str(&format!(in alloc; "{{\"k\":\"k{key}\",\"v\":{count}}}\n")?)?;
    }
    Ok(text)
}
