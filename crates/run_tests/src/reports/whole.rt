// Whole components: what is printed, listed, walked and refused, and which changes of blocks set arrangements back.
use super::whole_graphs::{
    BOND_TAIL, K4_TRIANGLE, K4_TWICE, K33_STAR, Session, TRIANGLES, TWO_CUTS, TWO_STARS,
    are_answers,
};
use super::{K33_TRIANGLE, TAIL};
use std::test::Fail;

// Components printed and listed, and led from one of their rotation systems to the next.
static WALKS: [Session; 11] = [
    // Two triangles and an edge: two cut vertices. The vertex 6 is a component of its own.
    (
        TAIL,
        b"whole 0\n\
        whole 1\n\
        nextwhole 0\n\
        whole 0\n\
        nextwhole 0\n\
        whole 0\n",
        b"whole 0 | 0: 0 2 3 5; 1: 0 1; 2: 1 2; 3: 3 4; 4: 4 5 6; 5: 6\n\
        whole 1 | 6:\n\
        ok\n\
        whole 0 | 0: 0 2 3 5; 1: 0 1; 2: 1 2; 3: 3 4; 4: 4 6 5; 5: 6\n\
        ok\n\
        whole 0 | 0: 0 2 5 3; 1: 0 1; 2: 1 2; 3: 3 4; 4: 4 5 6; 5: 6\n",
    ),
    // Of its eight plane rotation systems some are listed, or all that follow; nothing changes.
    (
        TAIL,
        b"listwhole 0 1\n\
        listwhole 1 1\n\
        listwhole 0 6\n\
        listwhole 0 7\n\
        whole 0\n\
        undo\n",
        b"listwhole 0 1\n\
        whole 0 | 0: 0 2 3 5; 1: 0 1; 2: 1 2; 3: 3 4; 4: 4 6 5; 5: 6\n\
        more\n\
        listwhole 1 0\n\
        end\n\
        listwhole 0 6\n\
        whole 0 | 0: 0 2 3 5; 1: 0 1; 2: 1 2; 3: 3 4; 4: 4 6 5; 5: 6\n\
        whole 0 | 0: 0 2 5 3; 1: 0 1; 2: 1 2; 3: 3 4; 4: 4 5 6; 5: 6\n\
        whole 0 | 0: 0 2 5 3; 1: 0 1; 2: 1 2; 3: 3 4; 4: 4 6 5; 5: 6\n\
        whole 0 | 0: 0 3 5 2; 1: 0 1; 2: 1 2; 3: 3 4; 4: 4 5 6; 5: 6\n\
        whole 0 | 0: 0 3 5 2; 1: 0 1; 2: 1 2; 3: 3 4; 4: 4 6 5; 5: 6\n\
        whole 0 | 0: 0 5 3 2; 1: 0 1; 2: 1 2; 3: 3 4; 4: 4 5 6; 5: 6\n\
        more\n\
        listwhole 0 7\n\
        whole 0 | 0: 0 2 3 5; 1: 0 1; 2: 1 2; 3: 3 4; 4: 4 6 5; 5: 6\n\
        whole 0 | 0: 0 2 5 3; 1: 0 1; 2: 1 2; 3: 3 4; 4: 4 5 6; 5: 6\n\
        whole 0 | 0: 0 2 5 3; 1: 0 1; 2: 1 2; 3: 3 4; 4: 4 6 5; 5: 6\n\
        whole 0 | 0: 0 3 5 2; 1: 0 1; 2: 1 2; 3: 3 4; 4: 4 5 6; 5: 6\n\
        whole 0 | 0: 0 3 5 2; 1: 0 1; 2: 1 2; 3: 3 4; 4: 4 6 5; 5: 6\n\
        whole 0 | 0: 0 5 3 2; 1: 0 1; 2: 1 2; 3: 3 4; 4: 4 5 6; 5: 6\n\
        whole 0 | 0: 0 5 3 2; 1: 0 1; 2: 1 2; 3: 3 4; 4: 4 6 5; 5: 6\n\
        end\n\
        whole 0 | 0: 0 2 3 5; 1: 0 1; 2: 1 2; 3: 3 4; 4: 4 5 6; 5: 6\n\
        error 8\n",
    ),
    // All eight one after the other: the last one stays, which is no change.
    (
        TAIL,
        b"nextwhole 0\n\
        nextwhole 0\n\
        nextwhole 0\n\
        nextwhole 0\n\
        nextwhole 0\n\
        nextwhole 0\n\
        nextwhole 0\n\
        whole 0\n\
        undo\n\
        nextwhole 0\n\
        nextwhole 0\n\
        whole 0\n\
        redo\n\
        listwhole 0 3\n\
        undo\n\
        whole 0\n\
        nextwhole 0\n\
        nextwhole 0\n\
        redo\n",
        b"ok\n\
        ok\n\
        ok\n\
        ok\n\
        ok\n\
        ok\n\
        ok\n\
        whole 0 | 0: 0 5 3 2; 1: 0 1; 2: 1 2; 3: 3 4; 4: 4 6 5; 5: 6\n\
        ok\n\
        ok\n\
        end\n\
        whole 0 | 0: 0 5 3 2; 1: 0 1; 2: 1 2; 3: 3 4; 4: 4 6 5; 5: 6\n\
        error 9\n\
        listwhole 0 0\n\
        end\n\
        ok\n\
        whole 0 | 0: 0 5 3 2; 1: 0 1; 2: 1 2; 3: 3 4; 4: 4 5 6; 5: 6\n\
        ok\n\
        end\n\
        error 9\n",
    ),
    // A list in which a block moves: twelve members.
    (
        K4_TRIANGLE,
        b"whole 0\n\
        listwhole 0 10000\n",
        b"whole 0 | 0: 0 1 2 6 8; 1: 0 4 3; 2: 1 3 5; 3: 2 5 4; 4: 6 7; 5: 7 8\n\
        listwhole 0 11\n\
        whole 0 | 0: 0 1 2 8 6; 1: 0 4 3; 2: 1 3 5; 3: 2 5 4; 4: 6 7; 5: 7 8\n\
        whole 0 | 0: 0 1 6 8 2; 1: 0 4 3; 2: 1 3 5; 3: 2 5 4; 4: 6 7; 5: 7 8\n\
        whole 0 | 0: 0 1 8 6 2; 1: 0 4 3; 2: 1 3 5; 3: 2 5 4; 4: 6 7; 5: 7 8\n\
        whole 0 | 0: 0 6 8 1 2; 1: 0 4 3; 2: 1 3 5; 3: 2 5 4; 4: 6 7; 5: 7 8\n\
        whole 0 | 0: 0 8 6 1 2; 1: 0 4 3; 2: 1 3 5; 3: 2 5 4; 4: 6 7; 5: 7 8\n\
        whole 0 | 0: 0 2 1 6 8; 1: 0 3 4; 2: 1 5 3; 3: 2 4 5; 4: 6 7; 5: 7 8\n\
        whole 0 | 0: 0 2 1 8 6; 1: 0 3 4; 2: 1 5 3; 3: 2 4 5; 4: 6 7; 5: 7 8\n\
        whole 0 | 0: 0 2 6 8 1; 1: 0 3 4; 2: 1 5 3; 3: 2 4 5; 4: 6 7; 5: 7 8\n\
        whole 0 | 0: 0 2 8 6 1; 1: 0 3 4; 2: 1 5 3; 3: 2 4 5; 4: 6 7; 5: 7 8\n\
        whole 0 | 0: 0 6 8 2 1; 1: 0 3 4; 2: 1 5 3; 3: 2 4 5; 4: 6 7; 5: 7 8\n\
        whole 0 | 0: 0 8 6 2 1; 1: 0 3 4; 2: 1 5 3; 3: 2 4 5; 4: 6 7; 5: 7 8\n\
        end\n",
    ),
    // Where a block moves, all cut vertices of the component get their first arrangement.
    (
        TWO_CUTS,
        b"regroup 4 9 7 6\n\
        regroup 0 8 6 1 2 0\n\
        whole 0\n\
        listwhole 0 1\n\
        nextwhole 0\n\
        whole 0\n\
        show 0\n",
        b"ok\n\
        ok\n\
        whole 0 | 0: 0 8 6 1 2; 1: 0 4 3; 2: 1 3 5; 3: 2 5 4; 4: 6 9 7; 5: 7 8; 6: 9\n\
        listwhole 0 1\n\
        whole 0 | 0: 0 2 1 6 8; 1: 0 3 4; 2: 1 5 3; 3: 2 4 5; 4: 6 7 9; 5: 7 8; 6: 9\n\
        more\n\
        ok\n\
        whole 0 | 0: 0 2 1 6 8; 1: 0 3 4; 2: 1 5 3; 3: 2 4 5; 4: 6 7 9; 5: 7 8; 6: 9\n\
        rotation 0 | 0: 0 2 1; 1: 0 3 4; 2: 1 5 3; 3: 2 4 5\n",
    ),
    // The last cut vertex moves first, and then those before it.
    (
        TWO_CUTS,
        b"nextwhole 0\n\
        whole 0\n\
        nextwhole 0\n\
        whole 0\n",
        b"ok\n\
        whole 0 | 0: 0 1 2 6 8; 1: 0 4 3; 2: 1 3 5; 3: 2 5 4; 4: 6 9 7; 5: 7 8; 6: 9\n\
        ok\n\
        whole 0 | 0: 0 1 2 8 6; 1: 0 4 3; 2: 1 3 5; 3: 2 5 4; 4: 6 7 9; 5: 7 8; 6: 9\n",
    ),
    // With a node of each block locked only the arrangements are listed.
    (
        K4_TWICE,
        b"lock 0 0\n\
        lock 1 0\n\
        listwhole 0 100\n\
        nextwhole 0\n\
        nextwhole 0\n\
        nextwhole 0\n\
        nextwhole 0\n\
        nextwhole 0\n\
        nextwhole 0\n\
        nextwhole 0\n\
        nextwhole 0\n\
        whole 0\n\
        nextwhole 0\n\
        unlock 0 0\n\
        nextwhole 0\n\
        whole 0\n",
        b"ok\n\
        ok\n\
        listwhole 0 8\n\
        whole 0 | 0: 0 1 2; 1: 0 4 3; 2: 1 3 5; 3: 2 5 4 7 8 6; 4: 6 10 9; 5: 7 9 11; 6: 8 11 10\n\
        whole 0 | 0: 0 1 2; 1: 0 4 3; 2: 1 3 5; 3: 2 5 4 8 6 7; 4: 6 10 9; 5: 7 9 11; 6: 8 11 10\n\
        whole 0 | 0: 0 1 2; 1: 0 4 3; 2: 1 3 5; 3: 2 5 6 7 8 4; 4: 6 10 9; 5: 7 9 11; 6: 8 11 10\n\
        whole 0 | 0: 0 1 2; 1: 0 4 3; 2: 1 3 5; 3: 2 5 7 8 6 4; 4: 6 10 9; 5: 7 9 11; 6: 8 11 10\n\
        whole 0 | 0: 0 1 2; 1: 0 4 3; 2: 1 3 5; 3: 2 5 8 6 7 4; 4: 6 10 9; 5: 7 9 11; 6: 8 11 10\n\
        whole 0 | 0: 0 1 2; 1: 0 4 3; 2: 1 3 5; 3: 2 6 7 8 5 4; 4: 6 10 9; 5: 7 9 11; 6: 8 11 10\n\
        whole 0 | 0: 0 1 2; 1: 0 4 3; 2: 1 3 5; 3: 2 7 8 6 5 4; 4: 6 10 9; 5: 7 9 11; 6: 8 11 10\n\
        whole 0 | 0: 0 1 2; 1: 0 4 3; 2: 1 3 5; 3: 2 8 6 7 5 4; 4: 6 10 9; 5: 7 9 11; 6: 8 11 10\n\
        end\n\
        ok\n\
        ok\n\
        ok\n\
        ok\n\
        ok\n\
        ok\n\
        ok\n\
        ok\n\
        whole 0 | 0: 0 1 2; 1: 0 4 3; 2: 1 3 5; 3: 2 8 6 7 5 4; 4: 6 10 9; 5: 7 9 11; 6: 8 11 10\n\
        end\n\
        ok\n\
        ok\n\
        whole 0 | 0: 0 2 1; 1: 0 3 4; 2: 1 5 3; 3: 2 4 5 6 7 8; 4: 6 10 9; 5: 7 9 11; 6: 8 11 10\n",
    ),
    // With one of them locked the other one moves.
    (
        K4_TWICE,
        b"lock 0 0\n\
        regroup 3 8 6 7 5 4 2\n\
        nextwhole 0\n\
        whole 0\n\
        regroup 3 2 8 7 6 5 4\n\
        nextwhole 0\n\
        listwhole 0 1\n\
        unlock 0 0\n\
        listwhole 0 1\n",
        b"ok\n\
        ok\n\
        ok\n\
        whole 0 | 0: 0 1 2; 1: 0 4 3; 2: 1 3 5; 3: 2 5 4 6 8 7; 4: 6 9 10; 5: 7 11 9; 6: 8 10 11\n\
        ok\n\
        end\n\
        listwhole 0 0\n\
        end\n\
        ok\n\
        listwhole 0 1\n\
        whole 0 | 0: 0 2 1; 1: 0 3 4; 2: 1 5 3; 3: 2 4 5 6 7 8; 4: 6 10 9; 5: 7 9 11; 6: 8 11 10\n\
        more\n",
    ),
    // Each component by itself.
    (
        TWO_STARS,
        b"whole 0\n\
        whole 1\n\
        whole 2\n\
        nextwhole 1\n\
        nextwhole 1\n\
        nextwhole 0\n\
        whole 0\n\
        whole 1\n\
        undo\n\
        whole 0\n\
        whole 1\n\
        undo\n\
        whole 1\n\
        undo\n",
        b"whole 0 | 0: 0; 1: 0 2 4; 3: 2; 5: 4\n\
        whole 1 | 2: 1; 4: 1 3 5; 6: 3; 7: 5\n\
        whole 2 | 8:\n\
        ok\n\
        end\n\
        ok\n\
        whole 0 | 0: 0; 1: 0 4 2; 3: 2; 5: 4\n\
        whole 1 | 2: 1; 4: 1 5 3; 6: 3; 7: 5\n\
        ok\n\
        whole 0 | 0: 0; 1: 0 2 4; 3: 2; 5: 4\n\
        whole 1 | 2: 1; 4: 1 5 3; 6: 3; 7: 5\n\
        ok\n\
        whole 1 | 2: 1; 4: 1 3 5; 6: 3; 7: 5\n\
        error 8\n",
    ),
    // A component that is not planar beside one that is.
    (
        K33_STAR,
        b"whole 0\n\
        nextwhole 0\n\
        listwhole 0 1\n\
        whole 1\n\
        nextwhole 1\n\
        whole 1\n\
        listwhole 1 1\n\
        whole 2\n\
        nextwhole 2\n\
        listwhole 2 1\n\
        undo\n",
        b"error 5\n\
        error 5\n\
        error 5\n\
        whole 1 | 6: 9 10 11; 7: 9; 8: 10; 9: 11\n\
        ok\n\
        whole 1 | 6: 9 11 10; 7: 9; 8: 10; 9: 11\n\
        listwhole 1 0\n\
        end\n\
        error 14\n\
        error 14\n\
        error 14\n\
        ok\n",
    ),
    // A component with a planar block and one that is not.
    (
        K33_TRIANGLE,
        b"whole 0\n\
        nextwhole 0\n\
        listwhole 0 1\n\
        mirror 1\n\
        undo\n\
        whole 1\n\
        undo\n",
        b"error 5\n\
        error 5\n\
        error 5\n\
        ok\n\
        ok\n\
        error 14\n\
        error 8\n",
    ),
];

#[test]
fn components_printed_listed_and_walked(rt: HostRuntime) -> Result<(), Fail> {
    assert!(rt; are_answers(rt.alloc(), &WALKS)?);
    Ok(())
}

// Arrangements at cut vertices, and why lists are refused.
static ARRANGEMENTS: [Session; 9] = [
    // Two blocks cross, an edge is missing, no cut vertex, no component.
    (
        TAIL,
        b"regroup 0 0 3 2 5\n\
        regroup 0 0 2 3\n\
        regroup 1 0 1\n\
        whole 2\n",
        b"error 17 0 1\n\
        error 6 0\n\
        error 15\n\
        error 14\n",
    ),
    // Whether the component is planar and the list has the edges there is asked of every vertex, before whether it is a cut vertex.
    (
        TAIL,
        b"regroup 1 1 0\n\
        regroup 1 0 2\n\
        regroup 1 0 1 0\n\
        regroup 6 0\n\
        regroup 7 0\n\
        regroup 4294967295 0\n\
        undo\n",
        b"error 15\n\
        error 6 1\n\
        error 6 1\n\
        error 6 6\n\
        error 15\n\
        error 15\n\
        error 8\n",
    ),
    // At a vertex of a component that is not planar nothing else is asked.
    (
        K33_TRIANGLE,
        b"regroup 5 2 5 8 9 11\n\
        regroup 5 2\n\
        regroup 6 9 10\n\
        regroup 6 9\n\
        regroup 0 0 1 2\n\
        regroup 8 0\n",
        b"error 5\n\
        error 5\n\
        error 5\n\
        error 5\n\
        error 5\n\
        error 15\n",
    ),
    // Another component that is not planar refuses nothing.
    (
        K33_STAR,
        b"regroup 6 11 10 9\n\
        whole 1\n\
        regroup 0 0 1 2\n\
        regroup 6 9 10\n\
        regroup 7 9\n\
        regroup 7 10\n\
        regroup 10 0\n",
        b"ok\n\
        whole 1 | 6: 9 11 10; 7: 9; 8: 10; 9: 11\n\
        error 5\n\
        error 6 6\n\
        error 15\n\
        error 6 7\n\
        error 15\n",
    ),
    // A list may begin at any edge; it is printed from the least one.
    (
        TAIL,
        b"regroup 0 3 5 2 0\n\
        whole 0\n\
        regroup 0 2 0 3 5\n\
        whole 0\n\
        regroup 4 6 4 5\n\
        whole 0\n",
        b"ok\n\
        whole 0 | 0: 0 3 5 2; 1: 0 1; 2: 1 2; 3: 3 4; 4: 4 5 6; 5: 6\n\
        ok\n\
        whole 0 | 0: 0 3 5 2; 1: 0 1; 2: 1 2; 3: 3 4; 4: 4 5 6; 5: 6\n\
        ok\n\
        whole 0 | 0: 0 3 5 2; 1: 0 1; 2: 1 2; 3: 3 4; 4: 4 5 6; 5: 6\n",
    ),
    // The least block whose order changes, before blocks that cross.
    (
        K4_TRIANGLE,
        b"regroup 0 0 2 1 6 8\n\
        regroup 0 0 6 2 8 1\n\
        regroup 0 1 6 2 8 0\n\
        flip 0 0\n\
        whole 0\n\
        regroup 0 0 2 1 6 8\n",
        b"error 16 0\n\
        error 16 0\n\
        error 17 0 1\n\
        ok\n\
        whole 0 | 0: 0 2 1 6 8; 1: 0 3 4; 2: 1 5 3; 3: 2 4 5; 4: 6 7; 5: 7 8\n\
        ok\n",
    ),
    // Of two blocks whose orders change the lesser one.
    (
        K4_TWICE,
        b"show 0\n\
        show 1\n\
        regroup 3 2 5 4 6 8 7\n\
        regroup 3 2 4 5 6 7 8\n\
        regroup 3 2 6 5 7 4 8\n\
        regroup 3 6 2 8 4 7 5\n\
        regroup 3 2 6 5 4 7 8\n\
        regroup 3 2 6 7 8 5 4\n",
        b"rotation 0 | 0: 0 1 2; 1: 0 4 3; 2: 1 3 5; 3: 2 5 4\n\
        rotation 1 | 3: 6 7 8; 4: 6 10 9; 5: 7 9 11; 6: 8 11 10\n\
        error 16 1\n\
        error 16 0\n\
        error 17 0 1\n\
        error 16 0\n\
        error 17 0 1\n\
        ok\n",
    ),
    // The least two blocks that cross.
    (
        TRIANGLES,
        b"regroup 0 0 3 2 6 5 8\n\
        regroup 0 0 6 2 8 3 5\n\
        regroup 0 0 3 6 5 8 2\n\
        regroup 0 0 2 3 6 5 8\n\
        regroup 0 0 3 6 8 5 2\n\
        regroup 0 3 0 6 8 2 5\n\
        whole 0\n",
        b"error 17 0 1\n\
        error 17 0 2\n\
        error 17 1 2\n\
        error 17 1 2\n\
        ok\n\
        ok\n\
        whole 0 | 0: 0 6 8 2 5 3; 1: 0 1; 2: 1 2; 3: 3 4; 4: 4 5; 5: 6 7; 6: 7 8\n",
    ),
    // An arrangement keeps the blocks as they are, and the locks.
    (
        K4_TRIANGLE,
        b"lock 0 0\n\
        regroup 0 0 6 8 1 2\n\
        show 0\n\
        rank 0\n\
        count 0\n\
        flip 0 0\n\
        nextwhole 0\n\
        whole 0\n",
        b"ok\n\
        ok\n\
        rotation 0 | 0: 0 1 2; 1: 0 4 3; 2: 1 3 5; 3: 2 5 4\n\
        rank 0\n\
        count 1\n\
        error 12 0\n\
        ok\n\
        whole 0 | 0: 0 8 6 1 2; 1: 0 4 3; 2: 1 3 5; 3: 2 5 4; 4: 6 7; 5: 7 8\n",
    ),
];

#[test]
fn arrangements_and_refused_lists(rt: HostRuntime) -> Result<(), Fail> {
    assert!(rt; are_answers(rt.alloc(), &ARRANGEMENTS)?);
    Ok(())
}

// Which changes of a block set the arrangements at its cut vertices back.
static RESETS: [Session; 7] = [
    // Each accepted change of K4 does.
    (
        K4_TRIANGLE,
        b"regroup 0 0 6 8 1 2\n\
        flip 0 0\n\
        whole 0\n\
        regroup 0 0 6 8 2 1\n\
        mirror 0\n\
        whole 0\n\
        regroup 0 0 6 8 1 2\n\
        next 0\n\
        whole 0\n\
        regroup 0 0 6 8 2 1\n\
        first 0\n\
        whole 0\n\
        regroup 0 0 6 8 1 2\n\
        goto 0 1\n\
        whole 0\n\
        regroup 0 0 6 8 2 1\n\
        take 0 0: 0 1 2; 1: 0 4 3; 2: 1 3 5; 3: 2 5 4\n\
        whole 0\n\
        regroup 0 0 6 8 1 2\n\
        convert 0 rank 1\n\
        whole 0\n\
        regroup 0 0 6 8 2 1\n\
        convert 0 to 0: 0 1 2; 1: 0 4 3; 2: 1 3 5; 3: 2 5 4\n\
        whole 0\n",
        b"ok\n\
        ok\n\
        whole 0 | 0: 0 2 1 6 8; 1: 0 3 4; 2: 1 5 3; 3: 2 4 5; 4: 6 7; 5: 7 8\n\
        ok\n\
        ok\n\
        whole 0 | 0: 0 1 2 6 8; 1: 0 4 3; 2: 1 3 5; 3: 2 5 4; 4: 6 7; 5: 7 8\n\
        ok\n\
        ok\n\
        whole 0 | 0: 0 2 1 6 8; 1: 0 3 4; 2: 1 5 3; 3: 2 4 5; 4: 6 7; 5: 7 8\n\
        ok\n\
        ok\n\
        whole 0 | 0: 0 1 2 6 8; 1: 0 4 3; 2: 1 3 5; 3: 2 5 4; 4: 6 7; 5: 7 8\n\
        ok\n\
        ok\n\
        whole 0 | 0: 0 2 1 6 8; 1: 0 3 4; 2: 1 5 3; 3: 2 4 5; 4: 6 7; 5: 7 8\n\
        ok\n\
        ok\n\
        whole 0 | 0: 0 1 2 6 8; 1: 0 4 3; 2: 1 3 5; 3: 2 5 4; 4: 6 7; 5: 7 8\n\
        ok\n\
        moves 1\n\
        flip 0\n\
        whole 0 | 0: 0 2 1 6 8; 1: 0 3 4; 2: 1 5 3; 3: 2 4 5; 4: 6 7; 5: 7 8\n\
        ok\n\
        moves 1\n\
        flip 0\n\
        whole 0 | 0: 0 1 2 6 8; 1: 0 4 3; 2: 1 3 5; 3: 2 5 4; 4: 6 7; 5: 7 8\n",
    ),
    // So do those that leave the block as it is.
    (
        K4_TRIANGLE,
        b"regroup 0 0 6 8 1 2\n\
        first 0\n\
        whole 0\n\
        regroup 0 0 6 8 1 2\n\
        goto 0 0\n\
        whole 0\n\
        regroup 0 0 6 8 1 2\n\
        take 0 0: 0 1 2; 1: 0 4 3; 2: 1 3 5; 3: 2 5 4\n\
        whole 0\n\
        regroup 0 0 6 8 1 2\n\
        convert 0 rank 0\n\
        whole 0\n\
        regroup 0 0 6 8 1 2\n\
        convert 0 to 0: 0 1 2; 1: 0 4 3; 2: 1 3 5; 3: 2 5 4\n\
        whole 0\n",
        b"ok\n\
        ok\n\
        whole 0 | 0: 0 1 2 6 8; 1: 0 4 3; 2: 1 3 5; 3: 2 5 4; 4: 6 7; 5: 7 8\n\
        ok\n\
        ok\n\
        whole 0 | 0: 0 1 2 6 8; 1: 0 4 3; 2: 1 3 5; 3: 2 5 4; 4: 6 7; 5: 7 8\n\
        ok\n\
        ok\n\
        whole 0 | 0: 0 1 2 6 8; 1: 0 4 3; 2: 1 3 5; 3: 2 5 4; 4: 6 7; 5: 7 8\n\
        ok\n\
        moves 0\n\
        whole 0 | 0: 0 1 2 6 8; 1: 0 4 3; 2: 1 3 5; 3: 2 5 4; 4: 6 7; 5: 7 8\n\
        ok\n\
        moves 0\n\
        whole 0 | 0: 0 1 2 6 8; 1: 0 4 3; 2: 1 3 5; 3: 2 5 4; 4: 6 7; 5: 7 8\n",
    ),
    // Those of the triangle too, at both of its cut vertices.
    (
        TWO_CUTS,
        b"regroup 0 0 6 8 1 2\n\
        regroup 4 6 9 7\n\
        mirror 1\n\
        whole 0\n\
        regroup 0 0 6 8 1 2\n\
        regroup 4 6 9 7\n\
        goto 1 0\n\
        whole 0\n\
        regroup 0 0 6 8 1 2\n\
        regroup 4 6 9 7\n\
        take 1 0: 6 8; 4: 6 7; 5: 7 8\n\
        whole 0\n",
        b"ok\n\
        ok\n\
        ok\n\
        whole 0 | 0: 0 1 2 6 8; 1: 0 4 3; 2: 1 3 5; 3: 2 5 4; 4: 6 7 9; 5: 7 8; 6: 9\n\
        ok\n\
        ok\n\
        ok\n\
        whole 0 | 0: 0 1 2 6 8; 1: 0 4 3; 2: 1 3 5; 3: 2 5 4; 4: 6 7 9; 5: 7 8; 6: 9\n\
        ok\n\
        ok\n\
        ok\n\
        whole 0 | 0: 0 1 2 6 8; 1: 0 4 3; 2: 1 3 5; 3: 2 5 4; 4: 6 7 9; 5: 7 8; 6: 9\n",
    ),
    // A change of K4 leaves the cut vertex of the triangle and the edge as it is.
    (
        TWO_CUTS,
        b"regroup 0 0 6 8 1 2\n\
        regroup 4 6 9 7\n\
        flip 0 0\n\
        whole 0\n\
        regroup 0 0 6 8 2 1\n\
        mirror 2\n\
        whole 0\n",
        b"ok\n\
        ok\n\
        ok\n\
        whole 0 | 0: 0 2 1 6 8; 1: 0 3 4; 2: 1 5 3; 3: 2 4 5; 4: 6 9 7; 5: 7 8; 6: 9\n\
        ok\n\
        ok\n\
        whole 0 | 0: 0 6 8 2 1; 1: 0 3 4; 2: 1 5 3; 3: 2 4 5; 4: 6 7 9; 5: 7 8; 6: 9\n",
    ),
    // A permutation of a bond.
    (
        BOND_TAIL,
        b"whole 0\n\
        regroup 1 0 2 3 1\n\
        whole 0\n\
        permute 0 0 0 1 2\n\
        whole 0\n\
        regroup 1 0 3 2 1\n\
        permute 0 0 0 2 1\n\
        whole 0\n",
        b"whole 0 | 0: 0 1 2; 1: 0 2 1 3; 2: 3\n\
        ok\n\
        whole 0 | 0: 0 1 2; 1: 0 2 3 1; 2: 3\n\
        ok\n\
        whole 0 | 0: 0 1 2; 1: 0 2 1 3; 2: 3\n\
        ok\n\
        ok\n\
        whole 0 | 0: 0 2 1; 1: 0 1 2 3; 2: 3\n",
    ),
    // Locks, refused changes and a last member do not.
    (
        K4_TRIANGLE,
        b"regroup 0 0 6 8 1 2\n\
        lock 0 0\n\
        flip 0 0\n\
        mirror 0\n\
        next 0\n\
        unlock 0 0\n\
        next 1\n\
        show 0\n\
        count 0\n\
        goto 0 2\n\
        take 0 0: 0\n\
        euler 0: 0\n\
        whole 0\n",
        b"ok\n\
        ok\n\
        error 12 0\n\
        error 12 0\n\
        end\n\
        ok\n\
        end\n\
        rotation 0 | 0: 0 1 2; 1: 0 4 3; 2: 1 3 5; 3: 2 5 4\n\
        count 2\n\
        error 11 2\n\
        error 6 0\n\
        error 6 0\n\
        whole 0 | 0: 0 6 8 1 2; 1: 0 4 3; 2: 1 3 5; 3: 2 5 4; 4: 6 7; 5: 7 8\n",
    ),
    // A change of a block in another component does not.
    (
        TWO_STARS,
        b"nextwhole 0\n\
        nextwhole 1\n\
        mirror 1\n\
        whole 0\n\
        whole 1\n\
        mirror 0\n\
        whole 0\n\
        whole 1\n",
        b"ok\n\
        ok\n\
        ok\n\
        whole 0 | 0: 0; 1: 0 4 2; 3: 2; 5: 4\n\
        whole 1 | 2: 1; 4: 1 3 5; 6: 3; 7: 5\n\
        ok\n\
        whole 0 | 0: 0; 1: 0 2 4; 3: 2; 5: 4\n\
        whole 1 | 2: 1; 4: 1 3 5; 6: 3; 7: 5\n",
    ),
];

#[test]
fn changes_of_blocks_set_arrangements_back(rt: HostRuntime) -> Result<(), Fail> {
    assert!(rt; are_answers(rt.alloc(), &RESETS)?);
    Ok(())
}
