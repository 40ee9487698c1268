// Gaps, words and strings at the beginning of some bytes.

ghost use Rattle.std.specs.Prelude.{◌≡◌, ◌+◌, ◌-◌, ◌<◌, ◌≤◌, false, true, length, is_none, IfSome, MatchOption};
ghost use Rattle.std.specs.List.{list_all};
ghost use Rattle.gml_text.specs.Bytes.{is_no_quote};
ghost use Rattle.gml_text.specs.Grammar.{is_key};
ghost use Rattle.gml_text.specs.Reading.{after_gap, IsWord, IsQuoted};
ghost use Rattle.gml_text.specs.Breaks.{KeyBreaks};

use crate::classes::{ends_word, is_key_byte, is_letter, is_line_end, is_white};

// What is left after the longest gap.
pub(crate) fn after_gap(bytes: &[u8]) -> &[u8]
    ensures rest { result.now ≡ after_gap bytes.now }
    ensures shorter { length result.now ≤ length bytes.now }
{
    let mut in_comment = false;
    for (i, byte) in bytes.iter().enumerate() {
        if in_comment {
            in_comment = !is_line_end(*byte);
        } else if *byte == b'#' {
            in_comment = true;
        } else if !is_white(*byte) {
            return &bytes[i..];
        }
    }
    &bytes[bytes.len()..]
}

// The longest prefix without a byte that ends a word, and the rest.
pub(crate) fn split_word(bytes: &[u8]) -> (&[u8], &[u8])
    ensures word { IsWord result.0.now bytes.now result.1.now }
    ensures lengths { length result.0.now + length result.1.now ≡ length bytes.now }
{
    for (i, byte) in bytes.iter().enumerate() {
        if ends_word(*byte) {
            return (&bytes[..i], &bytes[i..]);
        }
    }
    (bytes, &bytes[bytes.len()..])
}

// The bytes before the first quote, and those after it.
pub(crate) fn split_quoted(bytes: &[u8]) -> Option<(&[u8], &[u8])>
    ensures quoted { MatchOption result (list_all is_no_quote bytes.now ≡ true)
        (λ found. IsQuoted found.0.now bytes.now found.1.now) }
    ensures shorter { IfSome result (λ found. length found.1.now < length bytes.now) }
{
    for (i, byte) in bytes.iter().enumerate() {
        if *byte == b'"' {
            return Some((&bytes[..i], &bytes[i + 1..]));
        }
    }
    None
}

// None where the word is a key, else how many of its bytes some key begins with.
pub(crate) fn key_fault(word: &[u8]) -> Option<usize>
    ensures key { is_none result ≡ is_key word.now }
    ensures breaks { IfSome result (λ n. KeyBreaks word.now (length word.now - n)) }
    ensures within { IfSome result (λ n. n ≤ length word.now) }
{
    if word.is_empty() || !is_letter(word[0]) {
        return Some(0);
    }
    for (i, byte) in word.iter().enumerate() {
        if !is_key_byte(*byte) {
            return Some(i);
        }
    }
    None
}
