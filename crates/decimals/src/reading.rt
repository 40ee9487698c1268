// Decimal digits read as a number.
ghost use Rattle.std.specs.Prelude.{◌≡◌, ◌+◌, ◌^◌};
ghost use Rattle.decimals.specs.Number.{number_below, with_digit};

/// The number that a text spells: `Some` of it exactly where the text is one or more decimal digits, leading zeros
/// allowed, and the number is below 2^128. Takes no memory.
pub fn number(text: &[u8]) -> Option<u128>
    ensures { result ≡ number_below (2 ^ 128) text.now }
{
    if text.is_empty() {
        return None;
    }
    let mut value: u128 = 0;
    let mut rest = text;
    while let Some((digit, after)) = rest.split_first() {
        value = with_digit(value, *digit)?;
        rest = after;
    }
    Some(value)
}

/// The number that a text spells, as `number` reads it, where it is at most `most`. Takes no memory.
pub fn number_up_to(text: &[u8], most: u64) -> Option<u64>
    ensures { result ≡ number_below (most + 1) text.now }
{
    let n = number(text)?;
    if n <= u128::from(most) {
        Some(n as u64)
    } else {
        None
    }
}

// The number so far with one more digit after it.
fn with_digit(value: u128, digit: u8) -> Option<u128>
    ensures { result ≡ with_digit (2 ^ 128) value digit }
{
    if !digit.is_ascii_digit() {
        return None;
    }
    value.checked_mul(10)?.checked_add(u128::from(digit - b'0'))
}
