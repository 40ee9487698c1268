// Reads and writes that are defined at every place, so that a finder needs no invariant to be safe.

use std::alloc::AllocError;

/// No number.
pub const NONE: u32 = u32::MAX;

/// The number at the place, and `NONE` outside of the list.
pub fn at(list: &[u32], place: u32) -> u32 {
    let place = place as usize;
    if place < list.len() {
        list[place]
    } else {
        NONE
    }
}

/// Writes the number at the place, and nothing outside of the list.
pub fn put(list: &mut [u32], place: u32, number: u32) {
    let place = place as usize;
    if place < list.len() {
        list[place] = number;
    }
}

/// Whether the place has a mark; outside of the list each has one.
pub fn is_marked(marks: &[bool], place: u32) -> bool {
    let place = place as usize;
    place >= marks.len() || marks[place]
}

/// Marks the place, if it is in the list.
pub fn mark(marks: &mut [bool], place: u32) {
    let place = place as usize;
    if place < marks.len() {
        marks[place] = true;
    }
}

/// Takes the mark from the place, if it is in the list.
pub fn unmark(marks: &mut [bool], place: u32) {
    let place = place as usize;
    if place < marks.len() {
        marks[place] = false;
    }
}

/// The count as a number, `NONE` where it is larger.
pub fn number(count: usize) -> u32 {
    count.min(NONE as usize) as u32
}

/// Makes the list one of this many equal numbers. Fails only if memory runs out.
pub fn renew(list: &mut Vec<u32>, count: usize, value: u32) -> Result<(), AllocError> {
    list.clear();
    list.resize(count, value)
}

/// Makes the list one of this many marks that are not set. Fails only if memory runs out.
pub fn renew_marks(marks: &mut Vec<bool>, count: usize) -> Result<(), AllocError> {
    marks.clear();
    marks.resize(count, false)
}
