// The words that commands begin with, in a table, and the search in it.
ghost use Rattle.std.specs.Prelude.{◌≡◌};
ghost use Rattle.spqr_script.specs.Words.{spelling, all_words, word_among};

/// The word that a command begins with.
#[derive(Clone, Copy)]
pub enum Word {
    /// `euler`.
    Euler,
    /// `show`.
    Show,
    /// `faces`.
    Faces,
    /// `flip`.
    Flip,
    /// `permute`.
    Permute,
    /// `mirror`.
    Mirror,
    /// `first`.
    First,
    /// `next`.
    Next,
    /// `list`.
    List,
    /// `goto`.
    Goto,
    /// `convert`.
    Convert,
    /// `take`.
    Take,
    /// `undo`.
    Undo,
    /// `redo`.
    Redo,
    /// `gml`.
    Gml,
    /// `count`.
    Count,
    /// `rank`.
    Rank,
    /// `longest`.
    Longest,
    /// `draw`.
    Draw,
    /// `lock`.
    Lock,
    /// `unlock`.
    Unlock,
    /// `whole`.
    Whole,
    /// `regroup`.
    Regroup,
    /// `nextwhole`.
    NextWhole,
    /// `listwhole`.
    ListWhole,
    /// `convertwhole`.
    ConvertWhole,
}

// Every word, each once.
static WORDS: [Word; 26] = [
    Word::Euler,
    Word::Show,
    Word::Faces,
    Word::Flip,
    Word::Permute,
    Word::Mirror,
    Word::First,
    Word::Next,
    Word::List,
    Word::Goto,
    Word::Convert,
    Word::Take,
    Word::Undo,
    Word::Redo,
    Word::Gml,
    Word::Count,
    Word::Rank,
    Word::Longest,
    Word::Draw,
    Word::Lock,
    Word::Unlock,
    Word::Whole,
    Word::Regroup,
    Word::NextWhole,
    Word::ListWhole,
    Word::ConvertWhole,
];

// How a word is spelled.
fn spelling(word: Word) -> &'static [u8]
    ensures { result.now ≡ spelling word }
{
    match word {
        Word::Euler => b"euler",
        Word::Show => b"show",
        Word::Faces => b"faces",
        Word::Flip => b"flip",
        Word::Permute => b"permute",
        Word::Mirror => b"mirror",
        Word::First => b"first",
        Word::Next => b"next",
        Word::List => b"list",
        Word::Goto => b"goto",
        Word::Convert => b"convert",
        Word::Take => b"take",
        Word::Undo => b"undo",
        Word::Redo => b"redo",
        Word::Gml => b"gml",
        Word::Count => b"count",
        Word::Rank => b"rank",
        Word::Longest => b"longest",
        Word::Draw => b"draw",
        Word::Lock => b"lock",
        Word::Unlock => b"unlock",
        Word::Whole => b"whole",
        Word::Regroup => b"regroup",
        Word::NextWhole => b"nextwhole",
        Word::ListWhole => b"listwhole",
        Word::ConvertWhole => b"convertwhole",
    }
}

// The first of these words that is spelled so.
fn search(words: &[Word], name: &[u8]) -> Option<Word>
    ensures { result ≡ word_among words.now name.now }
{
    for word in words {
        if spelling(*word) == name {
            return Some(*word);
        }
    }
    None
}

// The word that is spelled so, where there is one.
pub(crate) fn find_word(name: &[u8]) -> Option<Word>
    ensures { result ≡ word_among all_words name.now }
{
    search(&WORDS, name)
}
