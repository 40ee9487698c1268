// The components of a state of splitting, written out.

ghost use Rattle.std.specs.Prelude.{◌≡◌, ◌+◌, ◌*◌, ◌<◌, ◌≤◌, ◌^◌, ◌∷◌, [], ℕ, length, IfOk, slice_index_or, Contains};
ghost use Rattle.pair_split.specs.Family.{Entry};
ghost use Rattle.pair_split.specs.Bridges.{entry_of, family_of, HaveNamesBelow};
ghost use Rattle.pair_split.specs.State.{SplitState, IsWrittenIn, AreWritten, AreSplitComponents};
ghost use Rattle.pair_split.specs.Splitting.{state_of};
ghost use Rattle.pair_split.specs.Writing.{IsListed, AreUps, IsLayerNoted, IsNotedFor, AreWrittenBehind, HavePartNamesBelow, ArePartsWritten, entry_total, finished_family};

use crate::components::{Comp, Comps, Kind, Piece, What};
use crate::family::NamedEdge;
use crate::lists::{CompList, PieceList};
use crate::splitting::Finished;
use std::alloc::{AllocError, Global};
use std::sync::ledger::Ledger;
use step_count::Steps;

// Notes for each virtual edge among these that it is in this layer.
fn note_layer<L: Ledger>(
    ups: &mut [u32],
    edges: &[NamedEdge],
    m: u32,
    layer: u32,
    steps: &mut Steps<L>,
)
    requires { HaveNamesBelow (m + length ups.old) edges.now }
    ensures noted { (entry : Entry) (c : ℕ) → Contains (family_of edges.now) entry
        → entry.name ≡ m + c → slice_index_or ups.new c 0 ≡ layer }
    ensures kept { (c : ℕ) → ((entry : Entry) → Contains (family_of edges.now) entry
        → entry.name ≡ m + c → ⊥) → slice_index_or ups.new c 0 ≡ slice_index_or ups.old c 0 }
    ensures cost { steps.new ≡ steps.old + length edges.now }
{
    for edge in edges {
        steps.tick();
        if edge.name >= m {
            ups[(edge.name - m) as usize] = layer;
        }
    }
}

// Notes for each virtual edge the layer that it is in beside its own component.
fn note_layers<L: Ledger>(
    ups: &mut [u32],
    parts: &[Finished],
    current: &[NamedEdge],
    m: u32,
    steps: &mut Steps<L>,
)
    requires listed { IsListed m (state_of parts.now current.now) }
    requires number { length ups.old ≡ length parts.now }
    requires few { length parts.now < 2 ^ 32 }
    ensures ups { AreUps m (state_of parts.now current.now) ups.new }
    ensures cost { steps.new ≡ steps.old + length parts.now + entry_total parts.now
        + length current.now }
{
    for (k, finished) in parts.iter().enumerate() {
        steps.tick();
        note_layer(ups, finished.edges.as_slice(), m, k as u32, steps);
    }
    note_layer(ups, current, m, parts.len() as u32, steps);
}

// For each virtual edge, the layer that it is in beside its own component.
fn ups_of<L: Ledger>(
    alloc: Global,
    parts: &[Finished],
    current: &[NamedEdge],
    m: u32,
    steps: &mut Steps<L>,
) -> Result<Vec<u32>, AllocError>
    requires listed { IsListed m (state_of parts.now current.now) }
    requires few { length parts.now < 2 ^ 32 }
    ensures ups { IfOk result (λ ups. AreUps m (state_of parts.now current.now) ups.items) }
    ensures number { IfOk result (λ ups. length ups.items ≡ length parts.now) }
    ensures cost { IfOk result (λ _. steps.new ≡ steps.old + length parts.now
        + entry_total parts.now + length current.now) }
    ensures at_most { steps.new ≤ steps.old + length parts.now + entry_total parts.now
        + length current.now }
    ensures rises { steps.old ≤ steps.new }
{
    let mut ups = vec![in alloc; 0; parts.len()]?;
    note_layers(&mut ups, parts, current, m, steps);
    Ok(ups)
}

// What an entry of component k represents.
fn what_of(edge: NamedEdge, m: u32, k: u32, ups: &[u32]) -> What
    requires { edge.name < m + length ups.now }
    ensures { (state : SplitState) → IsLayerNoted m state k ups.now (entry_of edge)
        → IsWrittenIn m state k (entry_of edge) result }
{
    if edge.name < m {
        return What::Real(edge.name);
    }
    let c = edge.name - m;
    if c == k {
        return What::Link(ups[k as usize]);
    }
    What::Link(c)
}

// Writes an entry of component k after the pieces.
fn push_piece(
    pieces: &mut Vec<Piece>,
    edge: NamedEdge,
    m: u32,
    k: u32,
    ups: &[u32],
) -> Result<(), AllocError>
    requires { edge.name < m + length ups.now }
    ensures { IfOk result (λ _. (state : SplitState)
        → IsLayerNoted m state k ups.now (entry_of edge)
        → AreWrittenBehind m state k (entry_of edge ∷ []) pieces.old.items pieces.new.items) }
{
    pieces.push(Piece {
        a: edge.first,
        b: edge.second,
        what: what_of(edge, m, k, ups),
    })?;
    Ok(())
}

// Writes entries of component k after the pieces.
fn push_pieces<L: Ledger>(
    pieces: &mut Vec<Piece>,
    edges: &[NamedEdge],
    m: u32,
    k: u32,
    ups: &[u32],
    steps: &mut Steps<L>,
) -> Result<(), AllocError>
    requires { HaveNamesBelow (m + length ups.now) edges.now }
    ensures written { IfOk result (λ _. (state : SplitState)
        → IsNotedFor m state k ups.now (family_of edges.now)
        → AreWrittenBehind m state k (family_of edges.now) pieces.old.items pieces.new.items) }
    ensures cost { IfOk result (λ _. steps.new ≡ steps.old + length edges.now) }
    ensures at_most { steps.new ≤ steps.old + length edges.now }
    ensures rises { steps.old ≤ steps.new }
{
    for edge in edges {
        steps.tick();
        push_piece(pieces, *edge, m, k, ups)?;
    }
    Ok(())
}

// A finished component, written out.
fn part_of<L: Ledger>(
    alloc: Global,
    finished: &Finished,
    m: u32,
    k: u32,
    ups: &[u32],
    steps: &mut Steps<L>,
) -> Result<Comp, AllocError>
    requires own { finished.now.own.name < m + length ups.now }
    requires names { HaveNamesBelow (m + length ups.now) finished.now.edges }
    ensures kind { IfOk result (λ comp. comp.kind ≡ finished.now.kind) }
    ensures written { IfOk result (λ comp. (state : SplitState)
        → IsNotedFor m state k ups.now (finished_family finished.now)
        → AreWritten m state k (finished_family finished.now) comp.items) }
    ensures cost { IfOk result (λ _. steps.new ≡ steps.old + length finished.now.edges) }
    ensures at_most { steps.new ≤ steps.old + length finished.now.edges }
    ensures rises { steps.old ≤ steps.new }
{
    let mut pieces = Vec::new(alloc);
    push_piece(&mut pieces, finished.own, m, k, ups)?;
    push_pieces(&mut pieces, finished.edges.as_slice(), m, k, ups, steps)?;
    Ok(Comp {
        kind: finished.kind,
        items: PieceList::of(pieces),
    })
}

// The last component, which has no virtual edge of its own, written out.
fn last_of<L: Ledger>(
    alloc: Global,
    kind: Kind,
    current: &[NamedEdge],
    m: u32,
    k: u32,
    ups: &[u32],
    steps: &mut Steps<L>,
) -> Result<Comp, AllocError>
    requires { HaveNamesBelow (m + length ups.now) current.now }
    ensures kind { IfOk result (λ comp. comp.kind ≡ kind) }
    ensures written { IfOk result (λ comp. (state : SplitState)
        → IsNotedFor m state k ups.now (family_of current.now)
        → AreWritten m state k (family_of current.now) comp.items) }
    ensures cost { IfOk result (λ _. steps.new ≡ steps.old + length current.now) }
    ensures at_most { steps.new ≤ steps.old + length current.now }
    ensures rises { steps.old ≤ steps.new }
{
    let mut pieces = Vec::new(alloc);
    push_pieces(&mut pieces, current, m, k, ups, steps)?;
    Ok(Comp {
        kind,
        items: PieceList::of(pieces),
    })
}

// The finished components, written out.
fn write_parts<L: Ledger>(
    alloc: Global,
    parts: &[Finished],
    m: u32,
    ups: &[u32],
    steps: &mut Steps<L>,
) -> Result<Vec<Comp>, AllocError>
    requires names { HavePartNamesBelow (m + length ups.now) parts.now }
    requires few { length parts.now < 2 ^ 32 }
    ensures written { IfOk result (λ comps. ArePartsWritten m parts.now ups.now
        (length parts.now) comps.items) }
    ensures cost { IfOk result (λ _. steps.new ≡ steps.old + length parts.now
        + entry_total parts.now) }
    ensures at_most { steps.new ≤ steps.old + length parts.now + entry_total parts.now }
    ensures rises { steps.old ≤ steps.new }
{
    let mut comps = Vec::new(alloc);
    for (k, finished) in parts.iter().enumerate() {
        steps.tick();
        comps.push(part_of(alloc, finished, m, k as u32, ups, steps)?)?;
    }
    Ok(comps)
}

/// The components of a state of splitting: the finished ones in order, and what is left as the last one, of this kind. The
/// names below `m` are those of edges, and m + c is that of the virtual edge of finished component c, which is in two
/// components in the end. Fails only if memory runs out. The steps are two for each finished component, for each of its
/// entries but its own virtual edge, and for each entry that is left.
pub fn write_components<L: Ledger>(
    alloc: Global,
    parts: &[Finished],
    current: &[NamedEdge],
    kind: Kind,
    m: u32,
    steps: &mut Steps<L>,
) -> Result<Comps, AllocError>
    requires listed { IsListed m (state_of parts.now current.now) }
    requires few { m + length parts.now < 2 ^ 32 }
    ensures components { IfOk result (λ comps. AreSplitComponents m
        (state_of parts.now current.now) kind comps.list) }
    ensures cost { IfOk result (λ _. steps.new ≡ steps.old
        + 2 * (length parts.now + entry_total parts.now + length current.now)) }
    ensures at_most { steps.new ≤ steps.old + 2 * (length parts.now + entry_total parts.now
        + length current.now) }
    ensures rises { steps.old ≤ steps.new }
{
    let ups = ups_of(alloc, parts, current, m, steps)?;
    let mut comps = write_parts(alloc, parts, m, &ups, steps)?;
    comps.push(last_of(alloc, kind, current, m, parts.len() as u32, &ups, steps)?)?;
    Ok(Comps {
        list: CompList::of(comps),
    })
}
