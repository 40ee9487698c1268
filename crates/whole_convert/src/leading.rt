// Blocks led to their parts of a rotation system of the component.

ghost use Rattle.std.specs.Prelude.{◌≡◌, ℕ, List, true, length, IfOk, IfErr};
ghost use Rattle.permutations.specs.Members.{is_member};
ghost use Rattle.multigraph.specs.Part.{IsNumbered};
ghost use Rattle.faces.specs.Euler.{IsPlaneSystem};
ghost use Rattle.skel_embed.specs.Taken.{IsGiven};
ghost use Rattle.whole_embed.specs.Component.{IsComponentInPlane};
ghost use Rattle.whole_embed.specs.Cuts.{blocks_in, member_at, HavePlanes};
ghost use Rattle.whole_embed.specs.Whole.{block_part};
ghost use Rattle.whole_convert.specs.Led.{IsTaken, IsTakenRefusal, IsDealt, IsLedTo, IsLeadRefusal, IsLeadAllRefusal, AreLedBelow};

use crate::dealing::{all_orders, cut_up, deal};
use crate::faults::WholeFault;
use multigraph::Part;
use rotations::{Lists, Rotation};
use skel_embed::{PlaneBlock, TakeFault};
use std::alloc::{AllocError, Global};
use whole_embed::{Frame, Member};

// A copy of a block with the rotation system that the lists are; `b` is its number.
fn taken(
    alloc: Global,
    plane: &PlaneBlock,
    part: &Part,
    lists: &Lists,
    b: u32,
) -> Result<PlaneBlock, WholeFault>
    requires part { part.now.graph ≡ plane.now.graph }
    requires numbered { IsNumbered part.now }
    requires given { (r : List (List ℕ)) × IsGiven part.now lists.now r
        × IsPlaneSystem part.now.graph r }
    ensures taken { IfOk result (IsTaken part.now lists.now plane.now) }
    ensures refused { IfErr result (IsTakenRefusal b part.now lists.now plane.now) }
{
    let mut copy = plane.copy(alloc)?;
    copy.belongs();
    match copy.take(alloc, part, lists) {
        Ok(()) => {
            copy.belongs();
            Ok(copy)
        }
        Err(fault) => match fault {
            TakeFault::Locked(j) => Err(WholeFault::Locked(b, j)),
            TakeFault::Memory => Err(WholeFault::Memory),
            TakeFault::BadRotation(_) => unreachable!(),
            TakeFault::NotGenusZero(_, _, _) => unreachable!(),
        },
    }
}

// A copy of block b with its part of a rotation system of the component, around whose vertices the block has these edges, one vertex
// after the other.
fn led(
    alloc: Global,
    frame: &Frame,
    edges: &[u32],
    all: &[Member],
    b: u32,
) -> Result<Member, WholeFault>
    requires component { IsComponentInPlane frame.now (blocks_in all.now) }
    requires planes { HavePlanes frame.now all.now }
    requires block { is_member b frame.now.blocks ≡ true }
    requires edges { (q : List (List ℕ)) × IsDealt frame.now q b edges.now }
    ensures led { (q : List (List ℕ)) → IsDealt frame.now q b edges.now
        → IfOk result (IsLedTo (member_at all.now b)
        (block_part frame.now (member_at all.now b).part q)) }
    ensures refused { (q : List (List ℕ)) → IsDealt frame.now q b edges.now
        → IfErr result (IsLeadRefusal b (blocks_in all.now b)
        (block_part frame.now (member_at all.now b).part q)) }
{
    let member = &all[b as usize];
    match &member.plane {
        Some(plane) => {
            let lists = cut_up(alloc, &member.part, edges)?;
            let new = taken(alloc, plane, &member.part, &lists, b)?;
            Ok(Member {
                part: member.part.copy(alloc)?,
                plane: Some(new),
            })
        }
        None => unreachable!(),
    }
}

// Copies of all blocks, those of the component with their parts of a plane rotation system of it.
pub(crate) fn all_led(
    alloc: Global,
    frame: &Frame,
    q: &Rotation,
    all: &[Member],
) -> Result<Vec<Member>, WholeFault>
    requires component { IsComponentInPlane frame.now (blocks_in all.now) }
    requires planes { HavePlanes frame.now all.now }
    requires plane { IsPlaneSystem frame.now.part.graph q.now }
    ensures led { IfOk result (λ new. AreLedBelow frame.now all.now q.now new.items
        (length frame.now.blocks)) }
    ensures refused { IfErr result (IsLeadAllRefusal frame.now (blocks_in all.now) q.now) }
{
    let orders = all_orders(alloc, frame.part(), q)?;
    let dealt = deal(alloc, frame, &orders, all.len())?;
    let blocks = frame.blocks();
    let mut new = copies(alloc, all)?;
    for j in 0..blocks.len() {
        let b = blocks[j];
        let member = led(alloc, frame, dealt[b as usize].as_slice(), all, b)?;
        new[b as usize] = member;
    }
    Ok(new)
}

// A copy of the list of blocks.
fn copies(alloc: Global, all: &[Member]) -> Result<Vec<Member>, AllocError>
    ensures { IfOk result (λ copies. copies.items ≡ all.now) }
{
    let mut copies = Vec::with_capacity(alloc, all.len())?;
    for member in all {
        copies.push(member.copy(alloc)?)?;
    }
    Ok(copies)
}
