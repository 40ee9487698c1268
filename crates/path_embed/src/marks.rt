// Marks of numbers, and the numbers that have one.

ghost use Rattle.std.specs.Prelude.{◌≡◌, ◌∷◌, ◌++◌, ◌<◌, [], filter, length, if◌then◌else◌, IfOk};
ghost use Rattle.multigraph.specs.Graph.{numbers_below};
ghost use Rattle.multigraph.specs.Marks.{is_marked};

use std::alloc::{AllocError, Global};

// Marks the number, if it has a place.
pub(crate) fn mark(marks: &mut [bool], number: u32)
    ensures { length marks.new ≡ length marks.old }
{
    if (number as usize) < marks.len() {
        marks[number as usize] = true;
    }
}

// Marks the numbers.
pub(crate) fn mark_all(marks: &mut [bool], numbers: &[u32])
    ensures { length marks.new ≡ length marks.old }
{
    for number in numbers {
        mark(marks, *number);
    }
}

// Whether the number is marked; no number without a place is.
pub(crate) fn is_marked(marks: &[bool], number: u32) -> bool
    ensures { result ≡ is_marked marks.now number }
{
    match marks.get(number as usize) {
        Some(marked) => *marked,
        None => false,
    }
}

// Appends the number if it is marked.
fn note(list: &mut Vec<u32>, number: u32, marked: bool) -> Result<(), AllocError>
    ensures { IfOk result (λ _. list.new.items ≡ (if marked then list.old.items ++ number ∷ []
        else list.old.items)) }
{
    if marked {
        list.push(number)?;
    }
    Ok(())
}

// The numbers below a bound that are marked, increasing.
pub(crate) fn marked_below(
    alloc: Global,
    marks: &[bool],
    bound: u32,
) -> Result<Vec<u32>, AllocError>
    ensures { IfOk result (λ list. list.items ≡ filter (is_marked marks.now) (numbers_below bound)) }
{
    let mut list = Vec::new(alloc);
    for number in 0..bound {
        let marked = is_marked(marks, number);
        note(&mut list, number, marked)?;
    }
    Ok(list)
}
