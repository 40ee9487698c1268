// Commands, and why bytes are not a script.
ghost use Rattle.std.specs.Prelude.{◌≡◌};
ghost use Rattle.spqr_script.specs.declared.command.ScriptFault.TheVariants.{Memory};

use multigraph::Numbers;
use rotations::Lists;
use std::alloc::{AllocError, AllocFailed};

/// A command of a script.
#[derive(Debug, Drop)]
pub enum Command {
    /// `euler ROT`: measure this rotation system of the whole graph.
    Euler(Lists),
    /// `show B`: print the rotation system of block B.
    Show(u32),
    /// `faces B`: print the faces of block B.
    Faces(u32),
    /// `flip B K`: turn node K of block B over.
    Flip(u32, u32),
    /// `permute B K KEYS`: put the items of node K of block B in the order of these keys.
    Permute(u32, u32, Numbers),
    /// `mirror B`: take the mirror image of block B.
    Mirror(u32),
    /// `first B`: take the first member of the list of block B.
    First(u32),
    /// `next B`: take the member that follows.
    Next(u32),
    /// `list B N`: print the N members that follow; N is from 1 to 10,000.
    List(u32, u32),
    /// `goto B R`: take the member at rank R.
    Goto(u32, u128),
    /// `convert B rank R`: print the moves that lead to the member at rank R, and make them.
    ConvertRank(u32, u128),
    /// `convert B to ROT`: print the moves that lead to this rotation system of the block, and make them.
    ConvertTo(u32, Lists),
    /// `take B ROT`: take this rotation system of the block.
    Take(u32, Lists),
    /// `undo`: go back before the last change.
    Undo,
    /// `redo`: make the last change that was undone again.
    Redo,
    /// `gml`: print the document.
    Gml,
    /// `count B`: print how many members the list of block B has.
    Count(u32),
    /// `rank B`: print the place of the present member in it.
    Rank(u32),
    /// `longest B`: print the length of the longest face that block B can have, and moves that lead to one.
    Longest(u32),
    /// `draw B`: print points for the vertices of block B that draw it with straight edges.
    Draw(u32),
    /// `lock B K`: keep the choice of node K of block B.
    Lock(u32, u32),
    /// `unlock B K`: let the choice of node K of block B change again.
    Unlock(u32, u32),
    /// `whole C`: print the rotation system of component C.
    Whole(u32),
    /// `regroup V EDGES`: put these edges in this cyclic order around vertex V.
    Regroup(u32, Numbers),
    /// `nextwhole C`: take the member of the list of component C that follows.
    NextWhole(u32),
    /// `listwhole C N`: print the N members that follow; N is from 1 to 10,000.
    ListWhole(u32, u32),
    /// `convertwhole C ROT`: print the moves that lead to this rotation system of the component, and make them.
    ConvertWhole(u32, Lists),
}

/// Why bytes are not a script.
#[derive(Clone, Copy, Debug, PartialEq, Eq)]
pub enum ScriptFault {
    /// The first line that is not a command and not skipped; lines are numbered from 1.
    BadLine(u32),
    /// Memory ran out.
    Memory,
}

impl From<AllocError> for ScriptFault {
    ghost from_gives = { λ _ e. e ≡ Memory };

    fn from(_e: AllocError) -> ScriptFault {
        ScriptFault::Memory
    }
}

impl<T: Drop> From<AllocFailed<T>> for ScriptFault {
    ghost from_gives = { λ _ e. e ≡ Memory };

    fn from(_e: AllocFailed<T>) -> ScriptFault {
        ScriptFault::Memory
    }
}
