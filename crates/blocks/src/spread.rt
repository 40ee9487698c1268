// Labels that are spread from parents to children along an order.
ghost use Rattle.std.specs.Prelude.{◌≡◌, ◌<◌, ℕ, true, false, map, length, IfOk, slice_index};
ghost use Rattle.multigraph.specs.Marks.{is_marked};
ghost use Rattle.blocks.specs.Spread.{IsSpreadOrder, IsSpread};

use std::alloc::{AllocError, Global};

// The label of a number of the order: itself, or the label of its parent.
fn label_of(parent: &[u32], own: &[bool], label: &[u32], vertex: u32) -> u32
    requires own_within { vertex < length own.now }
    requires parent_within { vertex < length parent.now }
    requires label_within { is_marked own.now vertex ≡ false
        → slice_index parent.now vertex < length label.now }
    ensures of_own { is_marked own.now vertex ≡ true → result ≡ vertex }
    ensures of_parent { is_marked own.now vertex ≡ false
        → result ≡ slice_index label.now (slice_index parent.now vertex) }
{
    if own[vertex as usize] {
        return vertex;
    }
    label[parent[vertex as usize] as usize]
}

// Gives each number of the order, from the first on, itself as its label, or the label of its parent.
fn spread_along(parent: &[u32], own: &[bool], order: &[u32], label: &mut [u32])
    requires order { IsSpreadOrder (length label.old) parent.now own.now order.now }
    ensures { IsSpread parent.now own.now order.now label.new }
{
    for vertex in order {
        let spread = label_of(parent, own, label, *vertex);
        label[*vertex as usize] = spread;
    }
}

// The label of each number of the order: itself where it has a label of its own, else the label of its parent.
pub(crate) fn spread(
    alloc: Global,
    parent: &[u32],
    own: &[bool],
    order: &[u32],
) -> Result<Vec<u32>, AllocError>
    requires order { IsSpreadOrder (length parent.now) parent.now own.now order.now }
    ensures labels { IfOk result (λ label. IsSpread parent.now own.now order.now label.items) }
    ensures places { IfOk result (λ label. length label.items ≡ length parent.now) }
{
    let mut label = vec![in alloc; 0; parent.len()]?;
    spread_along(parent, own, order, &mut label);
    Ok(label)
}

// The labels at these places.
pub(crate) fn labels_at(
    alloc: Global,
    places: &[u32],
    label: &[u32],
) -> Result<Vec<u32>, AllocError>
    requires { (k : ℕ) → k < length places.now → slice_index places.now k < length label.now }
    ensures { IfOk result (λ labels. labels.items ≡ map (slice_index label.now) places.now) }
{
    let mut labels = Vec::with_capacity(alloc, places.len())?;
    for place in places {
        labels.push(label[*place as usize])?;
    }
    Ok(labels)
}
