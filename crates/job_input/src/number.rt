//! Numbers as they are printed, read in one pass.

ghost use Rattle.std.specs.Prelude.{◌≡◌, ◌<◌, ◌^◌, IfSome, FitsSigned};
ghost use Rattle.std.specs.Fmt.{decimal, signed_decimal};
ghost use Rattle.std.specs.Int.{w64};

/// A number below this takes one more digit.
const ROOM: u64 = 100_000_000_000_000_000;

/// The number of at most 18 digits that is printed so.
fn short_natural(text: &[u8]) -> Option<u64>
    ensures { IfSome result (λ n. (n < 10 ^ 18) × (text.now ≡ decimal n)) }
{
    let mut n: u64 = 0;
    let mut i = 0;
    while i < text.len() {
        if !text[i].is_ascii_digit() || n >= ROOM || (n == 0 && i > 0) {
            return None;
        }
        n = 10 * n + (text[i] - b'0') as u64;
        i += 1;
    }
    if i == 0 { None } else { Some(n) }
}

/// The number of at most 18 digits, with its sign, that is printed so.
pub(crate) fn short_number(text: &[u8]) -> Option<i64>
    ensures { IfSome result (λ z. FitsSigned w64 z × (text.now ≡ signed_decimal z)) }
{
    if let Some((b'-', digits)) = text.split_first() {
        let n = short_natural(digits)?;
        return if n == 0 { None } else { Some(-(n as i64)) };
    }
    Some(short_natural(text)? as i64)
}
