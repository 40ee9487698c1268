// A text cut at a byte, and the tokens of a line from its beginning.
ghost use Rattle.std.specs.Prelude.{◌≡◌, ◌<◌, ◌≤◌, ◌==◌, ◌∷◌, ◌++◌, [], true, false, length, MatchOption};
ghost use Rattle.std.specs.List.{list_any, list_all};
ghost use Rattle.spqr_script.specs.Line.{is_blank, is_mark, is_word_byte, begins_word, begins_blank, is_passed_over, tokens_of};

// The text before the first such byte, and the text after it, where there is one.
pub(crate) fn cut(text: &[u8], byte: u8) -> Option<(&[u8], &[u8])>
    ensures { MatchOption result
        (list_any (λ b. b == byte) text.now ≡ false)
        (λ parts. (text.now ≡ parts.0.now ++ byte ∷ parts.1.now) × (list_any (λ b. b == byte) parts.0.now ≡ false)) }
{
    for (i, b) in text.iter().enumerate() {
        if *b == byte {
            return Some((&text[..i], &text[i + 1..]));
        }
    }
    None
}

fn is_blank(b: u8) -> bool
    ensures { result ≡ is_blank b }
{
    b == b' ' || b == b'\t'
}

fn is_mark(b: u8) -> bool
    ensures { result ≡ is_mark b }
{
    b == b':' || b == b';'
}

fn is_word_byte(b: u8) -> bool
    ensures { result ≡ is_word_byte b }
{
    !(is_blank(b) || is_mark(b))
}

// The line from its first byte on that is not a blank.
pub(crate) fn skip_blanks(line: &[u8]) -> &[u8]
    ensures tokens { tokens_of result.now ≡ tokens_of line.now }
    ensures passed_over { is_passed_over result.now ≡ is_passed_over line.now }
    ensures at_other { begins_blank result.now ≡ false }
    ensures bound { length result.now ≤ length line.now }
{
    let mut rest = line;
    while let Some((b, after)) = rest.split_first() {
        if !is_blank(*b) {
            break;
        }
        rest = after;
    }
    rest
}

// The word that the text begins with, and the text after it.
fn split_word(text: &[u8]) -> (&[u8], &[u8])
    ensures parts { text.now ≡ result.0.now ++ result.1.now }
    ensures word { list_all is_word_byte result.0.now ≡ true }
    ensures ends { begins_word result.1.now ≡ false }
{
    for (i, b) in text.iter().enumerate() {
        if !is_word_byte(*b) {
            return text.split_at(i);
        }
    }
    text.split_at(text.len())
}

// The first token of a line, and the text after it, where there is one.
pub(crate) fn next_token(line: &[u8]) -> Option<(&[u8], &[u8])>
    ensures { MatchOption result
        (tokens_of line.now ≡ [])
        (λ parts. (tokens_of line.now ≡ parts.0.now ∷ tokens_of parts.1.now) × (length parts.1.now < length line.now)) }
{
    let text = skip_blanks(line);
    let (first, _) = text.split_first()?;
    if is_mark(*first) {
        return Some(text.split_at(1));
    }
    Some(split_word(text))
}
