// Steps around the vertices, as a list that gives for each dart the one that follows it, and their changes.

ghost use Rattle.std.specs.Prelude.{◌<◌, length};
ghost use Rattle.permutations.specs.Exchange.{exchange};
ghost use Rattle.dart_maps.specs.Map.{twin};
ghost use Rattle.dart_maps.specs.Changes.{inserted};
ghost use Rattle.contract_embed.specs.Steps.{IsChangedBy};

use faces::twin;

// Exchanges what follows p and what follows q.
pub(crate) fn exchange(next: &mut [u32], p: u32, q: u32)
    requires first { p < length next.old }
    requires second { q < length next.old }
    ensures { IsChangedBy (length next.old) next.old next.new (exchange p q) }
{
    next.swap(p as usize, q as usize);
}

// Inserts the edge of dart d: d after p, and its twin after q.
pub(crate) fn insert(next: &mut [u32], d: u32, p: u32, q: u32)
    requires dart { d < length next.old }
    requires twin_in { twin d < length next.old }
    requires first { p < length next.old }
    requires second { q < length next.old }
    ensures { IsChangedBy (length next.old) next.old next.new (inserted d p q) }
{
    exchange(next, p, d);
    exchange(next, q, twin(d));
}
