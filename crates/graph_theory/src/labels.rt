// Labels of numbers, equal exactly where links connect them when some numbers are removed. `merge` takes time linear in the
// numbers: for slow methods and small graphs.

ghost use Rattle.std.specs.Prelude.{◌≡◌, ◌<◌, ℕ, length, IfOk};
ghost use Rattle.permutations.specs.Members.{is_member};
ghost use Rattle.graph_theory.specs.Labels.{label_at, renamed, AddsLink, AreLabelsBelow};

use std::alloc::{AllocError, Global};

/// Whether the number is one of those that are removed.
pub fn is_removed(removed: &[u32], number: u32) -> bool
    ensures { result ≡ is_member number removed.now }
{
    removed.contains(&number)
}

/// Each number below n, as its own label. Fails only if memory runs out.
pub fn own_labels(alloc: Global, n: u32) -> Result<Vec<u32>, AllocError>
    ensures own { IfOk result (λ labels. (x : ℕ) → label_at labels.items x ≡ x) }
    ensures number { IfOk result (λ labels. length labels.items ≡ n) }
{
    let mut labels = Vec::with_capacity(alloc, n as usize)?;
    for number in 0..n {
        labels.push(number)?;
    }
    Ok(labels)
}

// Replaces a label by another one.
fn relabel(labels: &mut [u32], from: u32, to: u32)
    requires { from < length labels.old }
    ensures { (x : ℕ) → label_at labels.new x ≡ renamed from to (label_at labels.old x) }
{
    for label in labels.iter_mut() {
        if *label == from {
            *label = to;
        }
    }
}

/// Makes the labels of the two ends of a link equal, if neither end is removed.
pub fn merge(labels: &mut [u32], removed: &[u32], first: u32, second: u32)
    requires first_in { first < length labels.old }
    requires second_in { second < length labels.old }
    requires within { AreLabelsBelow (length labels.old) labels.old }
    ensures merged { AddsLink removed.now (first, second) labels.old labels.new }
    ensures within { AreLabelsBelow (length labels.old) labels.new }
{
    if is_removed(removed, first) || is_removed(removed, second) {
        return;
    }
    let from = labels[first as usize];
    let to = labels[second as usize];
    if from != to {
        relabel(labels, from, to);
    }
}
