// Classes of equal labels, numbered in order of their first places.
ghost use Rattle.std.specs.Prelude.{◌≡◌, ◌<◌, ◌+◌, ◌^◌, [], true, false, length, IfOk, slice_index, ℕ};
ghost use Rattle.permutations.specs.Relation.{class_count};
ghost use Rattle.multigraph.specs.Marks.{is_marked};
ghost use Rattle.blocks.specs.Numbering.{IsNumbering, TakesNextNumber, same_label};

use std::alloc::{AllocError, Global};

// Gives a label that occurs for the first time the next number. Returns how many numbers were given.
fn meet(met: &mut [bool], number_of: &mut [u32], label: usize, classes: u32) -> u32
    requires met_within { label < length met.old }
    requires number_within { label < length number_of.old }
    requires fits { classes + 1 < 2 ^ 32 }
    ensures again { is_marked met.old label ≡ true
        → (met.new ≡ met.old) × (number_of.new ≡ number_of.old) × (result ≡ classes) }
    ensures first { is_marked met.old label ≡ false
        → TakesNextNumber label met.old number_of.old classes met.new number_of.new result }
{
    if met[label] {
        return classes;
    }
    met[label] = true;
    number_of[label] = classes;
    classes + 1
}

// Appends the number of the class of each label, from the first on. Returns how many classes there are.
fn number_along(
    labels: &[u32],
    met: &mut [bool],
    number_of: &mut [u32],
    numbers: &mut Vec<u32>,
) -> Result<u32, AllocError>
    requires within { (i : ℕ) → i < length labels.now → slice_index labels.now i < length met.old }
    requires same_length { length number_of.old ≡ length met.old }
    requires few { length labels.now < 2 ^ 31 }
    requires unmet { (label : ℕ) → is_marked met.old label ≡ false }
    requires none { numbers.old.items ≡ [] }
    ensures numbering { IfOk result (λ _. IsNumbering labels.now numbers.new.items) }
    ensures classes { IfOk result (λ classes. classes ≡ class_count (length labels.now)
        (same_label labels.now)) }
{
    let mut classes = 0u32;
    for label in labels {
        let place = *label as usize;
        classes = meet(met, number_of, place, classes);
        numbers.push(number_of[place])?;
    }
    Ok(classes)
}

// The number of the class of each label, and how many classes there are. Labels are below `bound`.
pub(crate) fn number_classes(
    alloc: Global,
    labels: &[u32],
    bound: usize,
) -> Result<(Vec<u32>, u32), AllocError>
    requires within { (i : ℕ) → i < length labels.now → slice_index labels.now i < bound }
    requires few { length labels.now < 2 ^ 31 }
    ensures numbering { IfOk result (λ r. IsNumbering labels.now r.0.items) }
    ensures classes { IfOk result (λ r. r.1 ≡ class_count (length labels.now)
        (same_label labels.now)) }
{
    let mut met = vec![in alloc; false; bound]?;
    let mut number_of = vec![in alloc; 0; bound]?;
    let mut numbers = Vec::with_capacity(alloc, labels.len())?;
    let classes = number_along(labels, &mut met, &mut number_of, &mut numbers)?;
    Ok((numbers, classes))
}
