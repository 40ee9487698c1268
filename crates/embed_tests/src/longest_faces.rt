// The longest faces of small blocks; the lengths are those of a search over all rotation systems by another program.

use crate::small_blocks::block_of;
use long_face::longest;
use std::test::Fail;

// A block, the length of its longest face, and the number of moves from its first plane rotation system to one that has it.
struct Row {
    vertices: u32,
    ends: &'static [(u32, u32)],
    length: u32,
    moves: usize,
}

static ROWS: [Row; 4] = [
    // one edge
    Row {
        vertices: 2,
        ends: &[(0, 1)],
        length: 2,
        moves: 0,
    },
    // two complete graphs on four vertices that share an edge
    Row {
        vertices: 6,
        ends: &[
            (0, 1),
            (0, 2),
            (0, 3),
            (1, 2),
            (1, 3),
            (2, 3),
            (0, 4),
            (0, 5),
            (1, 4),
            (1, 5),
            (4, 5),
        ],
        length: 4,
        moves: 0,
    },
    // two edges and two paths of three edges between two vertices, which alternate at first
    Row {
        vertices: 6,
        ends: &[
            (0, 2),
            (2, 3),
            (3, 1),
            (0, 1),
            (0, 4),
            (4, 5),
            (5, 1),
            (0, 1),
        ],
        length: 6,
        moves: 1,
    },
    // as the second, with a path of two edges in place of one edge of each
    Row {
        vertices: 8,
        ends: &[
            (0, 1),
            (0, 6),
            (6, 2),
            (0, 3),
            (1, 2),
            (1, 3),
            (2, 3),
            (0, 7),
            (7, 4),
            (0, 5),
            (1, 4),
            (1, 5),
            (4, 5),
        ],
        length: 6,
        moves: 2,
    },
];

// The lengths, and how many moves lead there.
#[test]
fn finds_the_longest(rt: HostRuntime) -> Result<(), Fail> {
    for row in &ROWS {
        let block = block_of(rt.alloc(), row.vertices, row.ends)?;
        let found = longest(rt.alloc(), &block)?;
        assert_eq!(rt; found.length, row.length);
        assert_eq!(rt; found.moves.len(), row.moves);
    }
    Ok(())
}
