// One item of a document: a key with the beginning of its value, a closing bracket, or the end.

ghost use Rattle.std.specs.Prelude.{◌≡◌, ◌≤◌, ◌<◌, ℕ, List, ◌∷◌, length, IfOk, IfErr, IfSome, MatchOption, MatchResult};
ghost use Rattle.gml_text.specs.Items.{FoundStands, ItemStands, IsShorter};
ghost use Rattle.gml_text.specs.Breaks.{ValueBreaks, PairBreaks};

use crate::number::number_fault;
use crate::scan::{after_gap, key_fault, split_quoted, split_word};

// The beginning of a value: a number, a string, or the bracket of a list.
pub(crate) enum Found<'a> {
    Number(&'a [u8]),
    Text(&'a [u8]),
    Open,
}

// An item, with the bytes after it.
pub(crate) enum Item<'a> {
    Pair(&'a [u8], Found<'a>, &'a [u8]),
    Close(&'a [u8]),
    End,
}

// The bytes after this first byte, or None if the bytes don't begin with it.
fn behind_byte(byte: u8, bytes: &[u8]) -> Option<&[u8]>
    ensures rest { MatchOption result ((rest : List ℕ) → bytes.now ≡ byte ∷ rest
        → ⊥) (λ rest. bytes.now ≡ byte ∷ rest.now) }
    ensures shorter { IfSome result (λ rest. length rest.now < length bytes.now) }
{
    if bytes.is_empty() || bytes[0] != byte {
        None
    } else {
        Some(&bytes[1..])
    }
}

// The beginning of a value after a gap, and the bytes after it; an Err is how many bytes are left where no value continues.
fn next_value(bytes: &[u8]) -> Result<(Found<'_>, &[u8]), usize>
    ensures found { MatchResult result (λ found. FoundStands found.0 bytes.now found.1.now)
        (λ left. ValueBreaks bytes.now left) }
    ensures shorter { IfOk result (λ found. length found.1.now ≤ length bytes.now) }
    ensures within { IfErr result (λ left. left ≤ length bytes.now) }
{
    let here = after_gap(bytes);
    match behind_byte(b'[', here) {
        Some(within) => Ok((Found::Open, within)),
        None => match behind_byte(b'"', here) {
            Some(quoted) => match split_quoted(quoted) {
                Some((text, behind)) => Ok((Found::Text(text), behind)),
                None => Err(0),
            },
            None => {
                let (word, rest) = split_word(here);
                match number_fault(word) {
                    None => Ok((Found::Number(word), rest)),
                    Some(n) => Err(here.len() - n),
                }
            }
        },
    }
}

// The next item; an Err is how many bytes are left where no document continues.
pub(crate) fn next_item(bytes: &[u8]) -> Result<Item<'_>, usize>
    ensures item { MatchResult result (λ item. ItemStands item bytes.now)
        (λ left. PairBreaks bytes.now left) }
    ensures shorter { IfOk result (λ item. IsShorter item bytes.now) }
    ensures within { IfErr result (λ left. left ≤ length bytes.now) }
{
    let here = after_gap(bytes);
    if here.is_empty() {
        return Ok(Item::End);
    }
    match behind_byte(b']', here) {
        Some(rest) => Ok(Item::Close(rest)),
        None => {
            let (key, behind) = split_word(here);
            match key_fault(key) {
                None => match next_value(behind) {
                    Ok((found, rest)) => Ok(Item::Pair(key, found, rest)),
                    Err(left) => Err(left),
                },
                Some(n) => Err(here.len() - n),
            }
        }
    }
}
