//! The parameters of row operators.

ghost use Rattle.std.specs.Prelude.{◌≡◌, ◌≤◌, ◌<◌, true, length, IfOk, IfSome, IfNone};
ghost use Rattle.std.specs.Str.{is_utf8};

use abs_codec::{Codec, NoMemory, Text};

/// The bytes that a row's key has at most.
pub const KEY_LIMIT: u32 = 1024;

/// The values that a window takes at most.
pub const WINDOW_LIMIT: u32 = 1024;

/// A text that can be a row's key: it has at most 1,024 bytes.
#[derive(Debug, PartialEq, Eq, Drop)]
pub struct RowKey {
    pub text: Text,
    pub ghost within: { length text ≤ 1024 },
    pub ghost utf8: { is_utf8 text ≡ true },
}

impl RowKey {
    /// The text as a key, if it is short enough.
    pub fn new(text: Text) -> Option<RowKey>
        ensures some { IfSome result (λ key. key.text ≡ text) }
        ensures none { IfNone result (1024 < length text) }
    {
        if text.as_str().len() > KEY_LIMIT as usize {
            return None;
        }
        Some(RowKey { text })
    }

    /// The same key.
    pub fn copied(&self) -> Result<RowKey, NoMemory>
        ensures { IfOk result (λ key. key ≡ self.now) }
    {
        Ok(RowKey {
            text: self.text.copied()?,
        })
    }
}

/// How many values a window takes before it sends their sum: 1 to 1,024.
#[derive(Clone, Copy, Debug, PartialEq, Eq)]
pub struct WindowSize {
    pub n: u32,
    pub ghost at_least: { 1 ≤ n },
    pub ghost at_most: { n ≤ 1024 },
}

impl WindowSize {
    /// The number as a size, if it is in range.
    pub fn new(n: u32) -> Option<WindowSize>
        ensures some { IfSome result (λ size. size.n ≡ n) }
        ensures none { IfNone result (1 ≤ n → 1024 < n) }
    {
        if n == 0 || n > WINDOW_LIMIT {
            return None;
        }
        Some(WindowSize { n })
    }
}

/// Which parameter an operator has.
#[derive(Clone, Copy, Debug, PartialEq, Eq)]
pub enum ParameterForm {
    Nothing,
    /// Any number of 64 bits.
    Number,
    /// A row's key.
    Key,
    /// A window's size.
    Size,
}

/// An operator's parameter.
#[derive(Debug, Drop)]
pub enum Parameter {
    Nothing,
    Number(i64),
    Key(RowKey),
    Size(WindowSize),
}
