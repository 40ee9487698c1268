// Numbers that are appended to a list once, each with a note.

ghost use Rattle.std.specs.Prelude.{◌≡◌, ◌<◌, true, length, IfOk};
ghost use Rattle.permutations.specs.Members.{is_member};
ghost use Rattle.graph_paths.specs.Listing.{AreListed, Grows};

use std::alloc::AllocError;

/// Appends `x` to the list and notes this of it, unless it is on the list. `marks` has the numbers on the list marked; it and `notes` have a
/// place for each number. In constant time. Fails only if memory runs out.
pub fn add_once(
    marks: &mut [bool],
    notes: &mut [u32],
    list: &mut Vec<u32>,
    x: u32,
    note: u32,
) -> Result<(), AllocError>
    requires listed { AreListed marks.old notes.old list.old.items }
    requires within { x < length marks.old }
    ensures listed { IfOk result (λ _. AreListed marks.new notes.new list.new.items) }
    ensures size { IfOk result (λ _. length marks.new ≡ length marks.old) }
    ensures grows { IfOk result (λ _. Grows (λ y m. (y ≡ x) × (m ≡ note))
        list.old.items notes.old list.new.items notes.new) }
    ensures held { IfOk result (λ _. is_member x list.new.items ≡ true) }
{
    if marks[x as usize] {
        return Ok(());
    }
    list.push(x)?;
    marks[x as usize] = true;
    notes[x as usize] = note;
    Ok(())
}
