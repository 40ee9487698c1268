// Copies of the blocks of a graph, and of a component with its lists.

ghost use Rattle.std.specs.Prelude.{◌≡◌, map, IfOk};

use crate::cuts::{Cuts, all_tables};
use crate::members::Member;
use skel_embed::PlaneBlock;
use std::alloc::{AllocError, Global};

// A copy of a block in the plane, if there is one.
fn copy_plane(alloc: Global, plane: &Option<PlaneBlock>) -> Result<Option<PlaneBlock>, AllocError>
    ensures { IfOk result (λ copy. copy ≡ plane.now) }
{
    match plane {
        Some(block) => Ok(Some(block.copy(alloc)?)),
        None => Ok(None),
    }
}

impl Member {
    /// A copy. Fails only if memory runs out.
    pub fn copy(&self, alloc: Global) -> Result<Member, AllocError>
        ensures { IfOk result (λ member. member ≡ self.now) }
    {
        Ok(Member {
            part: self.part.copy(alloc)?,
            plane: copy_plane(alloc, &self.plane)?,
        })
    }
}

// A copy of the list of blocks.
pub(crate) fn copies(alloc: Global, all: &[Member]) -> Result<Vec<Member>, AllocError>
    ensures { IfOk result (λ copies. copies.items ≡ all.now) }
{
    let mut copies = Vec::with_capacity(alloc, all.len())?;
    for member in all {
        copies.push(member.copy(alloc)?)?;
    }
    Ok(copies)
}

// A copy of lists of numbers.
fn copies_of(alloc: Global, lists: &[Vec<u32>]) -> Result<Vec<Vec<u32>>, AllocError>
    ensures { IfOk result (λ copies. map (λ l. l.items) copies.items
        ≡ map (λ l. l.items) lists.now) }
{
    let mut copies = Vec::with_capacity(alloc, lists.len())?;
    for list in lists {
        copies.push(Vec::from_slice(alloc, list)?)?;
    }
    Ok(copies)
}

impl Cuts {
    /// A copy. Fails only if memory runs out.
    pub fn copy(&self, alloc: Global) -> Result<Cuts, AllocError>
        ensures { IfOk result (λ cuts. cuts ≡ self.now) }
    {
        let frame = self.frame.copy(alloc)?;
        let orders = all_tables(alloc, &frame)?;
        let lists = copies_of(alloc, &self.lists)?;
        Ok(Cuts {
            frame,
            orders,
            lists,
        })
    }
}
