// Numbers, recognised byte by byte.

ghost use Rattle.std.specs.Prelude.{◌≡◌, ◌-◌, ◌≤◌, length, is_none, IfSome, Some};
ghost use Rattle.gml_text.specs.Recognised.{on, begin, step, is_whole, passes};
ghost use Rattle.gml_text.specs.Breaks.{NumberBreaks};
ghost use Rattle.gml_text.specs.declared.number.Part.TheVariants.{Nothing};

use crate::classes::{is_digit, is_either, is_mark, is_sign};

// What of a number has been read.
#[derive(Clone, Copy)]
pub(crate) enum Part {
    Nothing,
    Sign,
    Whole,
    Point,
    Fraction,
    Mark,
    MarkSign,
    Exponent,
    I,
    In,
    N,
    Na,
    Special,
}

impl Part {
    // What has been read with one more byte, or None if no number continues with it.
    fn step(self, byte: u8) -> Option<Part>
        ensures { result ≡ step self byte }
    {
        match self {
            Part::Nothing => {
                if is_sign(byte) {
                    Some(Part::Sign)
                } else {
                    Part::begin(byte)
                }
            }
            Part::Sign => Part::begin(byte),
            Part::Whole => {
                if is_digit(byte) {
                    Some(Part::Whole)
                } else if byte == b'.' {
                    Some(Part::Fraction)
                } else if is_mark(byte) {
                    Some(Part::Mark)
                } else {
                    None
                }
            }
            Part::Point => on(is_digit(byte), Part::Fraction),
            Part::Fraction => {
                if is_digit(byte) {
                    Some(Part::Fraction)
                } else {
                    on(is_mark(byte), Part::Mark)
                }
            }
            Part::Mark => {
                if is_sign(byte) {
                    Some(Part::MarkSign)
                } else {
                    on(is_digit(byte), Part::Exponent)
                }
            }
            Part::MarkSign => on(is_digit(byte), Part::Exponent),
            Part::Exponent => on(is_digit(byte), Part::Exponent),
            Part::I => on(is_either(b'N', byte), Part::In),
            Part::In => on(is_either(b'F', byte), Part::Special),
            Part::N => on(is_either(b'A', byte), Part::Na),
            Part::Na => on(is_either(b'N', byte), Part::Special),
            Part::Special => None,
        }
    }

    // What a number's first byte after its sign begins.
    fn begin(byte: u8) -> Option<Part>
        ensures { result ≡ begin byte }
    {
        if is_digit(byte) {
            Some(Part::Whole)
        } else if byte == b'.' {
            Some(Part::Point)
        } else if is_either(b'I', byte) {
            Some(Part::I)
        } else {
            on(is_either(b'N', byte), Part::N)
        }
    }

    // Whether a number may end here.
    fn is_whole(self) -> bool
        ensures { result ≡ is_whole self }
    {
        matches!(
            self,
            Part::Whole | Part::Fraction | Part::Exponent | Part::Special
        )
    }
}

// The part if the condition holds, else None.
fn on(met: bool, part: Part) -> Option<Part>
    ensures { result ≡ on met part }
{
    if met { Some(part) } else { None }
}

// None where the word is a number, else how many of its bytes some number begins with.
pub(crate) fn number_fault(word: &[u8]) -> Option<usize>
    ensures number { is_none result ≡ passes (Some Nothing) word.now }
    ensures breaks { IfSome result (λ n. NumberBreaks word.now (length word.now - n)) }
    ensures within { IfSome result (λ n. n ≤ length word.now) }
{
    let mut part = Part::Nothing;
    for (i, byte) in word.iter().enumerate() {
        match part.step(*byte) {
            Some(next) => part = next,
            None => return Some(i),
        }
    }
    if part.is_whole() {
        None
    } else {
        Some(word.len())
    }
}
