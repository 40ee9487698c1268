// Numbers in the words.
ghost use Rattle.std.specs.Prelude.{◌≡◌, ◌+◌, ◌^◌};
ghost use Rattle.decimals.specs.Number.{number_below};
ghost use Rattle.command_words.specs.Form.{at_least, least_edges, greatest_edges};

use decimals::number_up_to;

// The least and the greatest number of edges of a graph that is to be made.
const LEAST: u32 = 6;

const GREATEST: u64 = 20_000;

// The number of edges of a graph that is to be made.
pub(crate) fn edges(word: &str) -> Option<u32>
    ensures { result ≡ at_least least_edges (number_below (greatest_edges + 1) word.now) }
{
    let n = number_up_to(word.as_bytes(), GREATEST)? as u32;
    if n >= LEAST { Some(n) } else { None }
}

// The number from which a graph is made.
pub(crate) fn seed(word: &str) -> Option<u64>
    ensures { result ≡ number_below (2 ^ 64) word.now }
{
    number_up_to(word.as_bytes(), u64::MAX)
}
