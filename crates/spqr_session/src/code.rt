// The codes by which commands are refused.
ghost use Rattle.std.specs.Prelude.{◌≡◌, IfOk};
ghost use Rattle.spqr_session.specs.Codes.{code_text};

use spqr_script::error_line;
use std::alloc::{AllocError, Global};

/// Why a command is refused.
#[derive(Clone, Copy, Debug)]
pub enum Code {
    /// 1: a number is not that of a block.
    NoBlock,
    /// 2: a number is not that of a node of the block's tree.
    NoNode,
    /// 3: the node is not of the kind that the command is for.
    WrongKind,
    /// 4: keys are no permutation of the node's keys.
    BadOrder,
    /// 5: the block is not planar.
    NonPlanar,
    /// 6: lists are not a rotation system. The number is the least that is a vertex whose list is no permutation of its edges, or
    /// is named and is not a vertex.
    BadRotation(u32),
    /// 7: a rotation system is not plane. The numbers are those of its vertices, edges and faces.
    NotGenusZero(u32, u32, u32),
    /// 8: there is no earlier change.
    NothingToUndo,
    /// 9: no change was undone.
    NothingToRedo,
    /// 10: the list has 2^128 members or more.
    CountOver,
    /// 11: a rank is not below the length of the list, which is reported.
    RankOut(u128),
    /// 12: the choice of a locked node would change. The number is the node, the least where there are several.
    Locked(u32),
    /// 12, of a component: in this block the choice of this node, which is locked, would change. They are the least block and the least
    /// such node of it.
    LockedIn(u32, u32),
    /// 13: two edges of the block have the same ends. The numbers are the least pair of such edges.
    Parallel(u32, u32),
    /// 14: a number is not that of a component.
    NoComponent,
    /// 15: a number is not that of a cut vertex.
    NoCut,
    /// 16: a list changes the cyclic order of a block around the vertex. The number is the least such block.
    BlockOrder(u32),
    /// 17: two blocks cross in a list. The numbers are the least pair of such blocks.
    Cross(u32, u32),
}

impl Code {
    /// The line that says it.
    pub fn line(self, alloc: Global) -> Result<Vec<u8>, AllocError>
        ensures { IfOk result (λ text. text.items ≡ code_text self) }
    {
        match self {
            Code::NoBlock => error_line(alloc, 1, &[]),
            Code::NoNode => error_line(alloc, 2, &[]),
            Code::WrongKind => error_line(alloc, 3, &[]),
            Code::BadOrder => error_line(alloc, 4, &[]),
            Code::NonPlanar => error_line(alloc, 5, &[]),
            Code::BadRotation(v) => error_line(alloc, 6, &[u128::from(v)]),
            Code::NotGenusZero(v, e, f) => {
                error_line(alloc, 7, &[u128::from(v), u128::from(e), u128::from(f)])
            }
            Code::NothingToUndo => error_line(alloc, 8, &[]),
            Code::NothingToRedo => error_line(alloc, 9, &[]),
            Code::CountOver => error_line(alloc, 10, &[]),
            Code::RankOut(count) => error_line(alloc, 11, &[count]),
            Code::Locked(k) => error_line(alloc, 12, &[u128::from(k)]),
            Code::LockedIn(b, k) => error_line(alloc, 12, &[u128::from(b), u128::from(k)]),
            Code::Parallel(a, b) => error_line(alloc, 13, &[u128::from(a), u128::from(b)]),
            Code::NoComponent => error_line(alloc, 14, &[]),
            Code::NoCut => error_line(alloc, 15, &[]),
            Code::BlockOrder(b) => error_line(alloc, 16, &[u128::from(b)]),
            Code::Cross(b, c) => error_line(alloc, 17, &[u128::from(b), u128::from(c)]),
        }
    }
}
