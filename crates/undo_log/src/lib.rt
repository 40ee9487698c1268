// The history of moves: the steps that were made, and a cursor between those that hold and those that were undone.
//
// A step is a list of moves of blocks in the plane, with the moves that lead back and what changed at cut vertices, or a lock of a
// node that was set or removed. A command first makes room for its step, then does its work, and then notes the step, which cannot
// fail: so nothing is changed if memory runs out. A new step drops those past the cursor. `undo` and `redo` return a step and move
// the cursor over it; the caller carries it out.
#![tactic(auto)]

mod history;
mod shared;
mod step;

pub use history::{NothingToRedo, NothingToUndo, UndoLog};
pub use shared::SharedNumbers;
pub use step::{Arrangement, BlockMove, BlockMoves, CutChange, CutChanges, Step};
