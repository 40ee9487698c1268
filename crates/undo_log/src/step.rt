// A step of the history.

use crate::shared::SharedNumbers;
use moves::Move;
use multigraph::Sequence;

/// What one command changed.
#[derive(Debug, Drop)]
pub enum Step {
    /// Moves of blocks, in order, the moves that lead back, and what changed at cut vertices.
    Moves {
        forth: BlockMoves,
        back: BlockMoves,
        cuts: CutChanges,
    },
    /// The mirror image of a block, which leads back too, and what changed at cut vertices.
    Mirror {
        block: u32,
        cuts: CutChanges,
    },
    /// A node of a block locked or not before, and after.
    Lock {
        block: u32,
        node: u32,
        before: bool,
        after: bool,
    },
}

/// A move of a block in the plane.
#[derive(Debug, Drop)]
pub struct BlockMove {
    pub block: u32,
    pub one: Move,
}

/// A list of moves of blocks.
pub type BlockMoves = Sequence<BlockMove>;

/// The edges around a cut vertex in the order that was set there, which several steps share; `None` where it has the first arrangement
/// for the present blocks.
pub type Arrangement = Option<SharedNumbers>;

/// What a cut vertex had before, and after.
#[derive(Debug, Drop)]
pub struct CutChange {
    pub vertex: u32,
    pub before: Arrangement,
    pub after: Arrangement,
}

/// Changes of cut vertices.
pub type CutChanges = Sequence<CutChange>;
