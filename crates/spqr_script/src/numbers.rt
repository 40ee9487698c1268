// Numbers as the script spells them.
ghost use Rattle.std.specs.Prelude.{◌≡◌, IfOk, if◌then◌else◌, Some, None};
ghost use Rattle.spqr_script.specs.Line.{tokens_of};
ghost use Rattle.spqr_script.specs.Reading.{index_of, put_behind, indices_of, keys_of};

use crate::tokens::next_token;
use decimals::number;
use multigraph::Numbers;
use std::alloc::{AllocError, Global};

// The number of a vertex, an edge, a block, a component, a node or a key.
pub(crate) fn index(token: &[u8]) -> Option<u32>
    ensures { result ≡ index_of token.now }
{
    let n = number(token)?;
    if n <= u128::from(u32::MAX) {
        Some(n as u32)
    } else {
        None
    }
}

// Appends the numbers of the line's tokens to those given. False if a token is not a number.
pub(crate) fn read_indices(line: &[u8], numbers: &mut Vec<u32>) -> Result<bool, AllocError>
    ensures { IfOk result (λ all. put_behind numbers.old.items (indices_of (tokens_of line.now))
        ≡ (if all then Some numbers.new.items else None)) }
{
    let mut rest = line;
    while let Some((token, after)) = next_token(rest) {
        match index(token) {
            Some(n) => numbers.push(n)?,
            None => return Ok(false),
        }
        rest = after;
    }
    Ok(true)
}

// The numbers that the text is, where it is one or more.
pub(crate) fn read_keys(alloc: Global, text: &[u8]) -> Result<Option<Numbers>, AllocError>
    ensures { IfOk result (λ keys. keys ≡ keys_of (tokens_of text.now)) }
{
    let mut keys = Vec::new(alloc);
    if next_token(text).is_none() {
        return Ok(None);
    }
    if read_indices(text, &mut keys)? {
        Ok(Some(Numbers::of(keys)))
    } else {
        Ok(None)
    }
}
