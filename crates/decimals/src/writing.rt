// Words and numbers appended to a text.
ghost use Rattle.std.specs.Prelude.{◌≡◌, ◌++◌, OnOk, decimal};
ghost use Rattle.std.specs.Fmt.{signed_decimal};
ghost use Rattle.decimals.specs.Text.{spaced_numbers};

use itoa::Buffer;
use std::alloc::AllocError;

/// Appends a word to a text. Fails only if memory runs out.
pub fn push_word(out: &mut Vec<u8>, word: &[u8]) -> Result<(), AllocError>
    ensures { OnOk result (out.new.items ≡ out.old.items ++ word.now) }
{
    out.extend_from_slice(word)
}

/// Appends a number in decimal to a text. Fails only if memory runs out.
pub fn push_number(out: &mut Vec<u8>, n: u128) -> Result<(), AllocError>
    ensures { OnOk result (out.new.items ≡ out.old.items ++ decimal n) }
{
    let mut buffer = Buffer::new();
    out.extend_from_slice(buffer.format(n).as_bytes())
}

/// Appends a number in decimal, with its sign where it is negative, to a text. Fails only if memory runs out.
pub fn push_signed(out: &mut Vec<u8>, n: i64) -> Result<(), AllocError>
    ensures { OnOk result (out.new.items ≡ out.old.items ++ signed_decimal n) }
{
    let mut buffer = Buffer::new();
    out.extend_from_slice(buffer.format(n).as_bytes())
}

/// Appends numbers in decimal to a text, in order, each with a space before it. Fails only if memory runs out.
pub fn push_spaced(out: &mut Vec<u8>, numbers: &[u32]) -> Result<(), AllocError>
    ensures { OnOk result (out.new.items ≡ out.old.items ++ spaced_numbers numbers.now) }
{
    for n in numbers {
        push_word(out, b" ")?;
        push_number(out, u128::from(*n))?;
    }
    Ok(())
}

/// The same with numbers below 2^128. Fails only if memory runs out.
pub fn push_spaced_wide(out: &mut Vec<u8>, numbers: &[u128]) -> Result<(), AllocError>
    ensures { OnOk result (out.new.items ≡ out.old.items ++ spaced_numbers numbers.now) }
{
    for n in numbers {
        push_word(out, b" ")?;
        push_number(out, *n)?;
    }
    Ok(())
}
