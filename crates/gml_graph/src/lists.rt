// What is under a key in a list of pairs.

ghost use Rattle.std.specs.Prelude.{◌≡◌, map, IfOk};
ghost use Rattle.gml_text.specs.Pairs.{document_of};
ghost use Rattle.gml_graph.specs.Lists.{lists_under, first_under};

use crate::integers::{Reading, whole_number};
use gml_text::{Pair, Pairs, Value};
use std::alloc::{AllocError, Global};

/// The lists under a key, in order. Pairs with another key and values that are not lists are skipped. Fails only if memory runs
/// out.
pub(crate) fn lists_under<'a>(
    alloc: Global,
    pairs: &'a [Pair],
    key: &[u8],
) -> Result<Vec<&'a Pairs>, AllocError>
    ensures { IfOk result (λ found. map (λ list. list.now) found.items
        ≡ lists_under key.now (document_of pairs.now)) }
{
    let mut found = Vec::new(alloc);
    for pair in pairs {
        if let Value::List(inner) = &pair.value
            && pair.key.as_slice() == key
        {
            found.push(inner)?;
        }
    }
    Ok(found)
}

/// What the first pair under a key gives where a whole number is wanted. Takes no memory.
pub(crate) fn first_under(pairs: &[Pair], key: &[u8]) -> Reading
    ensures { result ≡ first_under key.now (document_of pairs.now) }
{
    for pair in pairs {
        if pair.key.as_slice() == key {
            return match &pair.value {
                Value::Num(text) => match whole_number(text.as_slice()) {
                    Some(number) => Reading::Whole(number),
                    None => Reading::NotWhole,
                },
                Value::Str(_) | Value::List(_) => Reading::NotWhole,
            };
        }
    }
    Reading::Missing
}
