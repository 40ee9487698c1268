// `list B N`: the members that follow the present one in a block's list.
ghost use Rattle.std.specs.Prelude.{◌≡◌, ℕ, ◌+◌, if◌then◌else◌, List, ◌++◌, length, take, drop, map, IfOk, OnOk};
ghost use Rattle.std.specs.List.{concat};
ghost use Rattle.skeletons.specs.Lists.{IsRank};
ghost use Rattle.embed_enum.specs.Walk.{IsMemberList};
ghost use Rattle.spqr_script.specs.Answers.Change.{end_text};
ghost use Rattle.spqr_script.specs.Answers.List.{list_text, more_text};
ghost use Rattle.spqr_script.specs.Answers.Rotation.{rotation_text};
ghost use Rattle.spqr_session.specs.State.{State};
ghost use Rattle.spqr_session.specs.Embedded.{view_tree, view_entry};
ghost use Rattle.spqr_session.specs.BlockCodes.{no_more, ReadStep};
ghost use Rattle.spqr_session.specs.Commands.Listing.{members_text, IsListing};

use super::kept_line::push_member;
use crate::embedded::EmbeddedBlock;
use crate::lines::put_first;
use crate::planar::plane_of;
use embed_enum::next;
use multigraph::Part;
use skel_embed::PlaneBlock;
use spqr_script::{end_line, list_line, more_line};
use std::alloc::{AllocError, Global};

// For how many lines room is made at once: of one block, all lines have the same length.
const LINES_AT_ONCE: u32 = 16;

// Goes to the next members, n of them or all where they are fewer, appends the line of each to a text, and returns how many they
// are.
fn push_members(
    alloc: Global,
    out: &mut Vec<u8>,
    b: u32,
    n: u32,
    part: &Part,
    walker: &mut PlaneBlock,
) -> Result<u32, AllocError>
    requires { walker.old.graph ≡ part.now.graph }
    ensures count { IfOk result (λ t. (l : List (List (List ℕ))) (i : ℕ) → IsMemberList walker.old l → IsRank l walker.old.rotation i
        → t ≡ length (take n (drop (i + 1) l))) }
    ensures stands { IfOk result (λ t. (l : List (List (List ℕ))) (i : ℕ) → IsMemberList walker.old l → IsRank l walker.old.rotation i
        → IsMemberList walker.new l × IsRank l walker.new.rotation (i + t)) }
    ensures lines { IfOk result (λ t. (l : List (List (List ℕ))) (i : ℕ) → IsMemberList walker.old l → IsRank l walker.old.rotation i
        → out.new.items ≡ out.old.items ++ concat (map (rotation_text part.now b) (take n (drop (i + 1) l)))) }
{
    let mut kept = None;
    for turn in 0..n {
        if !next(walker) {
            return Ok(turn);
        }
        let lines = (n - turn).min(LINES_AT_ONCE);
        kept = push_member(alloc, out, kept, b, part, walker.rotation(), lines)?;
    }
    Ok(n)
}

// The line after the members: whether one more follows.
pub(super) fn last_line(alloc: Global, more: bool) -> Result<Vec<u8>, AllocError>
    ensures { IfOk result (λ line. line.items ≡ (if more then more_text else end_text)) }
{
    if more {
        more_line(alloc)
    } else {
        end_line(alloc)
    }
}

// Puts the line `list B T` in the place of the line `list B N` with which a text begins. The text is moved only where T is not N.
fn set_count(
    alloc: Global,
    text: &mut Vec<u8>,
    b: u32,
    n: u32,
    count: u32,
) -> Result<(), AllocError>
    ensures { (rest : List ℕ) → text.old.items ≡ list_text b n ++ rest
        → OnOk result (text.new.items ≡ list_text b count ++ rest) }
{
    if count == n {
        return Ok(());
    }
    let front = list_line(alloc, b, n)?.len().min(text.len());
    let line = list_line(alloc, b, count)?;
    text.rotate_left(front);
    text.truncate(text.len() - front);
    put_first(text, &line)
}

// The lines of the next n members of a block in the plane, by a walk of a copy. The first line says that n follow, until the walk has
// counted them.
fn list_plane(
    alloc: Global,
    b: u32,
    n: u32,
    part: &Part,
    plane: &PlaneBlock,
) -> Result<Vec<u8>, AllocError>
    requires { plane.now.graph ≡ part.now.graph }
    ensures { IfOk result (λ text. (l : List (List (List ℕ))) (i : ℕ) → IsMemberList plane.now l → IsRank l plane.now.rotation i
        → text.items ≡ members_text b n (record { part = part.now; nodes = plane.now.tree }) (drop (i + 1) l)) }
{
    let mut walker = plane.copy(alloc)?;
    let mut text = list_line(alloc, b, n)?;
    let count = push_members(alloc, &mut text, b, n, part, &mut walker)?;
    let last = last_line(alloc, next(&mut walker))?;
    text.extend_from_slice(&last)?;
    set_count(alloc, &mut text, b, n, count)?;
    Ok(text)
}

/// Carries out `list`: the lines of the next n members of block `b`, or code 1 or 5. Nothing changes.
pub(crate) fn carry_list(
    alloc: Global,
    blocks: &[EmbeddedBlock],
    b: u32,
    n: u32,
) -> Result<Vec<u8>, AllocError>
    ensures { (s : State) → s.present.entries ≡ map view_entry blocks.now
        → IfOk result (λ text. ReadStep no_more (IsListing b n) (map view_tree blocks.now) b s text.items s) }
{
    match plane_of(blocks, b) {
        Ok((part, plane)) => list_plane(alloc, b, n, part, plane),
        Err(code) => code.line(alloc),
    }
}
