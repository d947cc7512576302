//! Numbers as a script writes them: decimal, with no leading zeros.

ghost use Rattle.std.specs.Prelude.{◌≡◌, ◌<◌, ◌^◌, ℕ, ℤ, IfSome, IfNone, FitsSigned, decimal};
ghost use Rattle.std.specs.Fmt.{signed_decimal};
ghost use Rattle.std.specs.Int.{w64};
ghost use Rattle.script_file.specs.Numbers.{number_of, signed_number_of};

use itoa::Buffer;

/// The number that is printed so.
fn printed(text: &str) -> Option<u32>
    ensures some { IfSome result (λ n. (n < 2 ^ 32) × (text.now ≡ decimal n)) }
    ensures none { IfNone result ((n : ℕ) → n < 2 ^ 32 → text.now ≡ decimal n → ⊥) }
{
    let Ok(n) = text.parse::<u32>() else {
        return None;
    };
    let mut buffer = Buffer::new();
    if buffer.format(n) == text {
        Some(n)
    } else {
        None
    }
}

/// The signed number that is printed so.
fn signed_printed(text: &str) -> Option<i64>
    ensures some { IfSome result (λ z. FitsSigned w64 z × (text.now ≡ signed_decimal z)) }
    ensures none { IfNone result ((z : ℤ) → FitsSigned w64 z → text.now ≡ signed_decimal z → ⊥) }
{
    let Ok(n) = text.parse::<i64>() else {
        return None;
    };
    let mut buffer = Buffer::new();
    if buffer.format(n) == text {
        Some(n)
    } else {
        None
    }
}

/// A number below 2^32.
pub(crate) fn number(text: &str) -> Option<u32>
    ensures { result ≡ number_of text.now }
{
    printed(text)
}

/// A number of 64 bits, with `-` before a negative one.
pub(crate) fn signed_number(text: &str) -> Option<i64>
    ensures { result ≡ signed_number_of text.now }
{
    signed_printed(text)
}
