// Whole numbers, read from the bytes of a number and from the first pair under a key.

ghost use Rattle.std.specs.Prelude.{◌≡◌, ◌^◌, ◌≤◌, pos, neg_ℤ};
ghost use Rattle.gml_graph.specs.Number.{digits_up_to, whole_number};

use decimals::number_up_to;

/// What the first pair under a key gives where a whole number of 64 bits is wanted.
#[derive(Clone, Copy)]
pub enum Reading {
    /// No pair has the key.
    Missing,
    /// The value is not a whole number of 64 bits.
    NotWhole,
    /// The value is this number.
    Whole(i64),
}

// The greatest whole number of 64 bits; the least is one further from zero.
const GREATEST: u64 = 0x7fff_ffff_ffff_ffff;

// The number that one or more decimal digits spell, where it is at most `most`.
fn digits_up_to(most: u64, digits: &[u8]) -> Option<u64>
    ensures { result ≡ digits_up_to most digits.now }
{
    number_up_to(digits, most)
}

// The negative of a number.
fn negative(number: u64) -> i64
    requires { number ≤ 2 ^ 63 }
    ensures { result ≡ neg_ℤ (pos number) }
{
    if number == 0 {
        0
    } else {
        -1 - (number - 1) as i64
    }
}

/// The value of an integer: a `+`, a `-` or neither, then one or more digits, where it fits 64 bits. Takes no memory.
pub(crate) fn whole_number(text: &[u8]) -> Option<i64>
    ensures { result ≡ whole_number text.now }
{
    match text {
        [] => None,
        [first, rest @ ..] => {
            if *first == b'-' {
                match digits_up_to(GREATEST + 1, rest) {
                    None => None,
                    Some(number) => Some(negative(number)),
                }
            } else if *first == b'+' {
                match digits_up_to(GREATEST, rest) {
                    None => None,
                    Some(number) => Some(number as i64),
                }
            } else {
                match digits_up_to(GREATEST, text) {
                    None => None,
                    Some(number) => Some(number as i64),
                }
            }
        }
    }
}
