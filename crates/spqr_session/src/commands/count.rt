// `count B` and `rank B`: how many members the list of a block has, and the place of the present one in it.
ghost use Rattle.std.specs.Prelude.{◌≡◌, ◌<◌, ◌^◌, map, IfOk};
ghost use Rattle.spqr_script.specs.Answers.Count.{count_text};
ghost use Rattle.spqr_session.specs.State.{State};
ghost use Rattle.spqr_session.specs.Embedded.{view_tree, view_entry};
ghost use Rattle.spqr_session.specs.Products.{CountByProduct, RankByProduct};

use crate::code::Code;
use crate::embedded::EmbeddedBlock;
use crate::planar::plane_of;
use embed_enum::{count, rank};
use spqr_script::{count_line, rank_line};
use std::alloc::{AllocError, Global};

// The line of a count, which is below 2^128 as every number of its type.
fn line_of(alloc: Global, members: u128) -> Result<Vec<u8>, AllocError>
    ensures line { IfOk result (λ text. text.items ≡ count_text members) }
    ensures below { members < 2 ^ 128 }
{
    count_line(alloc, members)
}

/// Carries out `count`: the length of the list of block `b`, or code 1, 5 or 10. Nothing changes.
pub(crate) fn carry_count(
    alloc: Global,
    blocks: &[EmbeddedBlock],
    b: u32,
) -> Result<Vec<u8>, AllocError>
    ensures { (s : State) → s.present.entries ≡ map view_entry blocks.now
        → IfOk result (λ text. CountByProduct (map view_tree blocks.now) b s text.items s) }
{
    match plane_of(blocks, b) {
        Ok((_, plane)) => match count(plane) {
            Ok(members) => line_of(alloc, members),
            Err(_) => Code::CountOver.line(alloc),
        },
        Err(code) => code.line(alloc),
    }
}

/// Carries out `rank`: the place of the present member in the list of block `b`, or code 1, 5 or 10. Nothing changes.
pub(crate) fn carry_rank(
    alloc: Global,
    blocks: &[EmbeddedBlock],
    b: u32,
) -> Result<Vec<u8>, AllocError>
    ensures { (s : State) → s.present.entries ≡ map view_entry blocks.now
        → IfOk result (λ text. RankByProduct (map view_tree blocks.now) b s text.items s) }
{
    match plane_of(blocks, b) {
        Ok((_, plane)) => match rank(plane) {
            Ok(place) => rank_line(alloc, place),
            Err(_) => Code::CountOver.line(alloc),
        },
        Err(code) => code.line(alloc),
    }
}
