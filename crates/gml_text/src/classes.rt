// Classes of bytes.

ghost use Rattle.std.specs.Prelude.{◌≡◌, ◌<◌};
ghost use Rattle.gml_text.specs.Bytes.{is_white, is_line_end, is_letter, is_digit, is_key_byte, is_sign, is_mark, is_either, ends_word};

// Tab, line feed, vertical tab, form feed, carriage return and space.
pub(crate) fn is_white(byte: u8) -> bool
    ensures { result ≡ is_white byte }
{
    matches!(byte, 9..=13 | 32)
}

// A line feed or a carriage return.
pub(crate) fn is_line_end(byte: u8) -> bool
    ensures { result ≡ is_line_end byte }
{
    byte == b'\n' || byte == b'\r'
}

// A letter of ASCII.
pub(crate) fn is_letter(byte: u8) -> bool
    ensures { result ≡ is_letter byte }
{
    matches!(byte, b'A'..=b'Z' | b'a'..=b'z')
}

// A decimal digit.
pub(crate) fn is_digit(byte: u8) -> bool
    ensures { result ≡ is_digit byte }
{
    matches!(byte, b'0'..=b'9')
}

// A byte that may occur in a key after its first byte.
pub(crate) fn is_key_byte(byte: u8) -> bool
    ensures { result ≡ is_key_byte byte }
{
    is_letter(byte) || is_digit(byte) || byte == b'_'
}

// A sign before a number.
pub(crate) fn is_sign(byte: u8) -> bool
    ensures { result ≡ is_sign byte }
{
    byte == b'+' || byte == b'-'
}

// What an exponent begins with.
pub(crate) fn is_mark(byte: u8) -> bool
    ensures { result ≡ is_mark byte }
{
    byte == b'E' || byte == b'e'
}

// A letter in either case.
pub(crate) fn is_either(capital: u8, byte: u8) -> bool
    requires { capital < 128 }
    ensures { result ≡ is_either capital byte }
{
    byte == capital || byte == capital + 32
}

// What may follow a key or a number.
pub(crate) fn ends_word(byte: u8) -> bool
    ensures { result ≡ ends_word byte }
{
    is_white(byte) || matches!(byte, b'[' | b']' | b'"' | b'#')
}
