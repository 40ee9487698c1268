// Whole components: what undo and redo bring back, conversions, and what files have to do with arrangements.
use super::starts::TWO_K4;
use super::whole_graphs::{
    BOND_TAIL, K4_TAIL, K4_TRIANGLE, K4_TWICE, K33_STAR, STAR, STAR_WITH_START, Session, TWO_CUTS,
    TWO_NODES_TAIL, are_answers,
};
use super::{K33_TRIANGLE, TAIL, answer};
use spqr_run::status::Status;
use std::alloc::{AllocError, Global};
use std::test::Fail;

// What undo and redo bring back.
static HISTORY: [Session; 7] = [
    // `whole` and `listwhole` are no changes.
    (
        TAIL,
        b"whole 0\n\
        listwhole 0 3\n\
        undo\n",
        b"whole 0 | 0: 0 2 3 5; 1: 0 1; 2: 1 2; 3: 3 4; 4: 4 5 6; 5: 6\n\
        listwhole 0 3\n\
        whole 0 | 0: 0 2 3 5; 1: 0 1; 2: 1 2; 3: 3 4; 4: 4 6 5; 5: 6\n\
        whole 0 | 0: 0 2 5 3; 1: 0 1; 2: 1 2; 3: 3 4; 4: 4 5 6; 5: 6\n\
        whole 0 | 0: 0 2 5 3; 1: 0 1; 2: 1 2; 3: 3 4; 4: 4 6 5; 5: 6\n\
        more\n\
        error 8\n",
    ),
    // `regroup` and `nextwhole`.
    (
        TAIL,
        b"regroup 0 0 5 3 2\n\
        undo\n\
        whole 0\n\
        redo\n\
        whole 0\n\
        nextwhole 0\n\
        undo\n\
        whole 0\n\
        redo\n\
        whole 0\n\
        undo\n\
        undo\n\
        whole 0\n\
        undo\n",
        b"ok\n\
        ok\n\
        whole 0 | 0: 0 2 3 5; 1: 0 1; 2: 1 2; 3: 3 4; 4: 4 5 6; 5: 6\n\
        ok\n\
        whole 0 | 0: 0 5 3 2; 1: 0 1; 2: 1 2; 3: 3 4; 4: 4 5 6; 5: 6\n\
        ok\n\
        ok\n\
        whole 0 | 0: 0 5 3 2; 1: 0 1; 2: 1 2; 3: 3 4; 4: 4 5 6; 5: 6\n\
        ok\n\
        whole 0 | 0: 0 5 3 2; 1: 0 1; 2: 1 2; 3: 3 4; 4: 4 6 5; 5: 6\n\
        ok\n\
        ok\n\
        whole 0 | 0: 0 2 3 5; 1: 0 1; 2: 1 2; 3: 3 4; 4: 4 5 6; 5: 6\n\
        error 8\n",
    ),
    // `convertwhole`, which changes two blocks and a cut vertex at once.
    (
        K4_TWICE,
        b"convertwhole 0 0: 0 2 1; 1: 0 3 4; 2: 1 5 3; 3: 2 6 8 7 4 5; 4: 6 9 10; 5: 7 11 9; 6: 8 10 11\n\
        whole 0\n\
        undo\n\
        whole 0\n\
        undo\n\
        redo\n\
        whole 0\n\
        show 0\n\
        show 1\n\
        redo\n",
        b"moves 3\n\
        flip 0 0\n\
        flip 1 0\n\
        regroup 3 2 6 8 7 4 5\n\
        whole 0 | 0: 0 2 1; 1: 0 3 4; 2: 1 5 3; 3: 2 6 8 7 4 5; 4: 6 9 10; 5: 7 11 9; 6: 8 10 11\n\
        ok\n\
        whole 0 | 0: 0 1 2; 1: 0 4 3; 2: 1 3 5; 3: 2 5 4 6 7 8; 4: 6 10 9; 5: 7 9 11; 6: 8 11 10\n\
        error 8\n\
        ok\n\
        whole 0 | 0: 0 2 1; 1: 0 3 4; 2: 1 5 3; 3: 2 6 8 7 4 5; 4: 6 9 10; 5: 7 11 9; 6: 8 10 11\n\
        rotation 0 | 0: 0 2 1; 1: 0 3 4; 2: 1 5 3; 3: 2 4 5\n\
        rotation 1 | 3: 6 8 7; 4: 6 9 10; 5: 7 11 9; 6: 8 10 11\n\
        error 9\n",
    ),
    // A `nextwhole` that moves two blocks.
    (
        K4_TWICE,
        b"goto 1 1\n\
        regroup 3 2 8 7 6 5 4\n\
        whole 0\n\
        nextwhole 0\n\
        whole 0\n\
        undo\n\
        whole 0\n\
        undo\n\
        whole 0\n\
        undo\n\
        whole 0\n\
        redo\n\
        redo\n\
        redo\n\
        whole 0\n",
        b"ok\n\
        ok\n\
        whole 0 | 0: 0 1 2; 1: 0 4 3; 2: 1 3 5; 3: 2 8 7 6 5 4; 4: 6 9 10; 5: 7 11 9; 6: 8 10 11\n\
        ok\n\
        whole 0 | 0: 0 2 1; 1: 0 3 4; 2: 1 5 3; 3: 2 4 5 6 7 8; 4: 6 10 9; 5: 7 9 11; 6: 8 11 10\n\
        ok\n\
        whole 0 | 0: 0 1 2; 1: 0 4 3; 2: 1 3 5; 3: 2 8 7 6 5 4; 4: 6 9 10; 5: 7 11 9; 6: 8 10 11\n\
        ok\n\
        whole 0 | 0: 0 1 2; 1: 0 4 3; 2: 1 3 5; 3: 2 5 4 6 8 7; 4: 6 9 10; 5: 7 11 9; 6: 8 10 11\n\
        ok\n\
        whole 0 | 0: 0 1 2; 1: 0 4 3; 2: 1 3 5; 3: 2 5 4 6 7 8; 4: 6 10 9; 5: 7 9 11; 6: 8 11 10\n\
        ok\n\
        ok\n\
        ok\n\
        whole 0 | 0: 0 2 1; 1: 0 3 4; 2: 1 5 3; 3: 2 4 5 6 7 8; 4: 6 10 9; 5: 7 9 11; 6: 8 11 10\n",
    ),
    // The arrangements from before a change of the block come back with it.
    (
        K4_TRIANGLE,
        b"regroup 0 0 6 8 1 2\n\
        flip 0 0\n\
        whole 0\n\
        undo\n\
        whole 0\n\
        redo\n\
        whole 0\n\
        undo\n\
        lock 0 0\n\
        undo\n\
        whole 0\n\
        undo\n\
        whole 0\n",
        b"ok\n\
        ok\n\
        whole 0 | 0: 0 2 1 6 8; 1: 0 3 4; 2: 1 5 3; 3: 2 4 5; 4: 6 7; 5: 7 8\n\
        ok\n\
        whole 0 | 0: 0 6 8 1 2; 1: 0 4 3; 2: 1 3 5; 3: 2 5 4; 4: 6 7; 5: 7 8\n\
        ok\n\
        whole 0 | 0: 0 2 1 6 8; 1: 0 3 4; 2: 1 5 3; 3: 2 4 5; 4: 6 7; 5: 7 8\n\
        ok\n\
        ok\n\
        ok\n\
        whole 0 | 0: 0 6 8 1 2; 1: 0 4 3; 2: 1 3 5; 3: 2 5 4; 4: 6 7; 5: 7 8\n\
        ok\n\
        whole 0 | 0: 0 1 2 6 8; 1: 0 4 3; 2: 1 3 5; 3: 2 5 4; 4: 6 7; 5: 7 8\n",
    ),
    // A `regroup` to the present list and a `convertwhole` without moves can be undone, and drop what could be redone.
    (
        TAIL,
        b"nextwhole 0\n\
        undo\n\
        regroup 0 0 2 3 5\n\
        redo\n\
        undo\n\
        undo\n\
        nextwhole 0\n\
        undo\n\
        convertwhole 0 0: 0 2 3 5; 1: 0 1; 2: 1 2; 3: 3 4; 4: 4 5 6; 5: 6\n\
        redo\n\
        undo\n\
        undo\n",
        b"ok\n\
        ok\n\
        ok\n\
        error 9\n\
        ok\n\
        error 8\n\
        ok\n\
        ok\n\
        moves 0\n\
        error 9\n\
        ok\n\
        error 8\n",
    ),
    // Refused commands and `end` keep what can be redone.
    (
        STAR,
        b"nextwhole 0\n\
        regroup 0 2 1 0\n\
        undo\n\
        nextwhole 0\n\
        regroup 0 0 1\n\
        regroup 1 0\n\
        nextwhole 1\n\
        convertwhole 0 0: 0\n\
        whole 0\n\
        redo\n\
        redo\n\
        whole 0\n",
        b"ok\n\
        ok\n\
        ok\n\
        end\n\
        error 6 0\n\
        error 15\n\
        error 14\n\
        error 6 0\n\
        whole 0 | 0: 0 2 1; 1: 0; 2: 1; 3: 2\n\
        ok\n\
        error 9\n\
        whole 0 | 0: 0 2 1; 1: 0; 2: 1; 3: 2\n",
    ),
];

#[test]
fn components_in_the_history(rt: HostRuntime) -> Result<(), Fail> {
    assert!(rt; are_answers(rt.alloc(), &HISTORY)?);
    Ok(())
}

// Whole components converted, and the codes.
static CONVERSIONS: [Session; 11] = [
    // Two arrangements change.
    (
        TAIL,
        b"convertwhole 0 0: 0 5 3 2; 1: 0 1; 2: 1 2; 3: 3 4; 4: 4 6 5; 5: 6\n\
        whole 0\n\
        convertwhole 0 0: 2 0 5 3; 1: 1 0; 2: 1 2; 3: 3 4; 4: 6 5 4; 5: 6\n\
        whole 0\n",
        b"moves 2\n\
        regroup 0 0 5 3 2\n\
        regroup 4 4 6 5\n\
        whole 0 | 0: 0 5 3 2; 1: 0 1; 2: 1 2; 3: 3 4; 4: 4 6 5; 5: 6\n\
        moves 0\n\
        whole 0 | 0: 0 5 3 2; 1: 0 1; 2: 1 2; 3: 3 4; 4: 4 6 5; 5: 6\n",
    ),
    // A component of one vertex has one rotation system, however it is given.
    (
        TAIL,
        b"convertwhole 1\n\
        convertwhole 1 6:\n\
        convertwhole 1 6: 0\n\
        convertwhole 1 5: 6\n\
        convertwhole 1 0:\n\
        nextwhole 1\n\
        undo\n\
        undo\n\
        undo\n",
        b"moves 0\n\
        moves 0\n\
        error 6 6\n\
        error 6 5\n\
        error 6 0\n\
        end\n\
        ok\n\
        ok\n\
        error 8\n",
    ),
    // The codes: wrong lists, not plane, no component; a list names vertices of the component alone.
    (
        TAIL,
        b"convertwhole 0\n\
        convertwhole 0 0: 0 2 3 5; 1: 0 1; 2: 1 2; 3: 3 4; 4: 4 5; 5: 6\n\
        convertwhole 0 0: 0 2 3 5; 1: 0 1; 2: 1 2; 3: 3 4; 4: 4 5 6; 5: 6; 6:\n\
        convertwhole 0 0: 0 3 2 5; 1: 0 1; 2: 1 2; 3: 3 4; 4: 4 5 6; 5: 6\n\
        convertwhole 2 0: 0\n\
        convertwhole 4294967295\n\
        undo\n",
        b"error 6 0\n\
        error 6 4\n\
        error 6 6\n\
        error 7 6 7 1\n\
        error 14\n\
        error 14\n\
        error 8\n",
    ),
    // Of a component that is not planar nothing else is asked.
    (
        K33_TRIANGLE,
        b"convertwhole 0 0: 0\n\
        convertwhole 0\n\
        convertwhole 1 0: 0\n",
        b"error 5\n\
        error 5\n\
        error 14\n",
    ),
    // Beside one that is not planar.
    (
        K33_STAR,
        b"convertwhole 1 6: 9 11 10; 7: 9; 8: 10; 9: 11\n\
        whole 1\n\
        convertwhole 1 0: 0 1 2\n\
        convertwhole 1 6: 9 11 10; 7: 9; 8: 10; 9: 11\n",
        b"moves 1\n\
        regroup 6 9 11 10\n\
        whole 1 | 6: 9 11 10; 7: 9; 8: 10; 9: 11\n\
        error 6 0\n\
        moves 0\n",
    ),
    // Where a block moves, its cut vertex is at the first arrangement before lists are compared.
    (
        K4_TRIANGLE,
        b"regroup 0 0 6 8 1 2\n\
        convertwhole 0 0: 0 2 1 6 8; 1: 0 3 4; 2: 1 5 3; 3: 2 4 5; 4: 6 7; 5: 7 8\n\
        convertwhole 0 0: 0 6 8 1 2; 1: 0 4 3; 2: 1 3 5; 3: 2 5 4; 4: 6 7; 5: 7 8\n\
        convertwhole 0 0: 0 6 8 1 2; 1: 0 4 3; 2: 1 3 5; 3: 2 5 4; 4: 6 7; 5: 7 8\n\
        convertwhole 0 0: 0 6 8 2 1; 1: 0 3 4; 2: 1 5 3; 3: 2 4 5; 4: 6 7; 5: 7 8\n",
        b"ok\n\
        moves 1\n\
        flip 0 0\n\
        moves 2\n\
        flip 0 0\n\
        regroup 0 0 6 8 1 2\n\
        moves 0\n\
        moves 2\n\
        flip 0 0\n\
        regroup 0 0 6 8 2 1\n",
    ),
    // Elsewhere lists are compared with the arrangements that are there.
    (
        TWO_CUTS,
        b"regroup 4 6 9 7\n\
        regroup 0 0 6 8 1 2\n\
        convertwhole 0 0: 0 2 1 6 8; 1: 0 3 4; 2: 1 5 3; 3: 2 4 5; 4: 6 9 7; 5: 7 8; 6: 9\n\
        whole 0\n\
        undo\n\
        whole 0\n\
        convertwhole 0 0: 0 2 1 6 8; 1: 0 3 4; 2: 1 5 3; 3: 2 4 5; 4: 6 7 9; 5: 7 8; 6: 9\n\
        whole 0\n",
        b"ok\n\
        ok\n\
        moves 1\n\
        flip 0 0\n\
        whole 0 | 0: 0 2 1 6 8; 1: 0 3 4; 2: 1 5 3; 3: 2 4 5; 4: 6 9 7; 5: 7 8; 6: 9\n\
        ok\n\
        whole 0 | 0: 0 6 8 1 2; 1: 0 4 3; 2: 1 3 5; 3: 2 5 4; 4: 6 9 7; 5: 7 8; 6: 9\n\
        moves 2\n\
        flip 0 0\n\
        regroup 4 6 7 9\n\
        whole 0 | 0: 0 2 1 6 8; 1: 0 3 4; 2: 1 5 3; 3: 2 4 5; 4: 6 7 9; 5: 7 8; 6: 9\n",
    ),
    // A bond and a cut vertex.
    (
        BOND_TAIL,
        b"convertwhole 0 0: 0 2 1; 1: 0 1 3 2; 2: 3\n\
        whole 0\n\
        convertwhole 0 0: 0 2 1; 1: 0 1 3 2; 2: 3\n\
        convertwhole 0 0: 0 1 2; 1: 0 2 1 3; 2: 3\n\
        whole 0\n",
        b"moves 2\n\
        permute 0 0 0 2 1\n\
        regroup 1 0 1 3 2\n\
        whole 0 | 0: 0 2 1; 1: 0 1 3 2; 2: 3\n\
        moves 0\n\
        moves 1\n\
        permute 0 0 0 1 2\n\
        whole 0 | 0: 0 1 2; 1: 0 2 1 3; 2: 3\n",
    ),
    // Locks at two blocks: the least block with another choice, and the node. A flip names the node alone.
    (
        K4_TWICE,
        b"lock 1 0\n\
        convertwhole 0 0: 0 2 1; 1: 0 3 4; 2: 1 5 3; 3: 2 4 5 6 8 7; 4: 6 9 10; 5: 7 11 9; 6: 8 10 11\n\
        lock 0 0\n\
        convertwhole 0 0: 0 2 1; 1: 0 3 4; 2: 1 5 3; 3: 2 4 5 6 8 7; 4: 6 9 10; 5: 7 11 9; 6: 8 10 11\n\
        convertwhole 0 0: 0 1 2; 1: 0 4 3; 2: 1 3 5; 3: 2 5 4 6 8 7; 4: 6 9 10; 5: 7 11 9; 6: 8 10 11\n\
        flip 1 0\n\
        unlock 1 0\n\
        convertwhole 0 0: 0 1 2; 1: 0 4 3; 2: 1 3 5; 3: 2 5 4 6 8 7; 4: 6 9 10; 5: 7 11 9; 6: 8 10 11\n\
        convertwhole 0 0: 0 2 1; 1: 0 3 4; 2: 1 5 3; 3: 2 4 5 6 8 7; 4: 6 9 10; 5: 7 11 9; 6: 8 10 11\n\
        flip 0 0\n\
        whole 0\n",
        b"ok\n\
        error 12 1 0\n\
        ok\n\
        error 12 0 0\n\
        error 12 1 0\n\
        error 12 0\n\
        ok\n\
        moves 1\n\
        flip 1 0\n\
        error 12 0 0\n\
        error 12 0\n\
        whole 0 | 0: 0 1 2; 1: 0 4 3; 2: 1 3 5; 3: 2 5 4 6 8 7; 4: 6 9 10; 5: 7 11 9; 6: 8 10 11\n",
    ),
    // Of two locked nodes of a block the lesser one.
    (
        TWO_NODES_TAIL,
        b"whole 0\n\
        lock 0 1\n\
        lock 0 0\n\
        convertwhole 0 0: 0 6 5 1 10; 1: 2 3 7 8; 2: 0 4 2; 3: 1 3 4; 4: 5 9 7; 5: 6 8 9; 6: 10\n\
        unlock 0 0\n\
        convertwhole 0 0: 0 6 5 1 10; 1: 2 3 7 8; 2: 0 4 2; 3: 1 3 4; 4: 5 9 7; 5: 6 8 9; 6: 10\n\
        unlock 0 1\n\
        convertwhole 0 0: 0 6 5 1 10; 1: 2 3 7 8; 2: 0 4 2; 3: 1 3 4; 4: 5 9 7; 5: 6 8 9; 6: 10\n",
        b"whole 0 | 0: 0 1 5 6 10; 1: 2 8 7 3; 2: 0 2 4; 3: 1 4 3; 4: 5 7 9; 5: 6 9 8; 6: 10\n\
        ok\n\
        ok\n\
        error 12 0 0\n\
        ok\n\
        error 12 0 1\n\
        ok\n\
        moves 2\n\
        flip 0 0\n\
        flip 0 1\n",
    ),
    // Codes 6 and 7 come before the locks.
    (
        K4_TWICE,
        b"lock 0 0\n\
        convertwhole 0 0: 0 2 1; 1: 0 3 4; 2: 1 5 3; 3: 2 4 5 6 8 7; 4: 6 9 10; 5: 7 11 9; 6: 8 10\n\
        convertwhole 0 0: 0 2 1; 1: 0 3 4; 2: 1 5 3; 3: 2 6 4 8 5 7; 4: 6 9 10; 5: 7 11 9; 6: 8 10 11\n\
        convertwhole 0 0: 0 2 1; 1: 0 3 4; 2: 1 5 3; 3: 2 4 5 6 8 7; 4: 6 9 10; 5: 7 11 9; 6: 8 10 11\n\
        undo\n\
        convertwhole 0 0: 0 2 1; 1: 0 3 4; 2: 1 5 3; 3: 2 4 5 6 8 7; 4: 6 9 10; 5: 7 11 9; 6: 8 10 11\n",
        b"ok\n\
        error 6 6\n\
        error 7 7 12 3\n\
        error 12 0 0\n\
        ok\n\
        moves 2\n\
        flip 0 0\n\
        flip 1 0\n",
    ),
];

#[test]
fn components_converted(rt: HostRuntime) -> Result<(), Fail> {
    assert!(rt; are_answers(rt.alloc(), &CONVERSIONS)?);
    Ok(())
}

// The file and the arrangements.
static FILES: [Session; 3] = [
    // `gml` writes the edges block by block, whatever the arrangement.
    (
        STAR,
        b"regroup 0 0 2 1\n\
        whole 0\n\
        gml\n",
        b"ok\n\
        whole 0 | 0: 0 2 1; 1: 0; 2: 1; 3: 2\n\
        gml 303\n\
        graph [\n  \
        node [\n    \
        id 0\n    \
        spqrRotation \"0 1 2\"\n  \
        ]\n  \
        node [\n    \
        id 1\n    \
        spqrRotation \"0\"\n  \
        ]\n  \
        node [\n    \
        id 2\n    \
        spqrRotation \"1\"\n  \
        ]\n  \
        node [\n    \
        id 3\n    \
        spqrRotation \"2\"\n  \
        ]\n  \
        edge [\n    \
        source 0\n    \
        target 1\n  \
        ]\n  \
        edge [\n    \
        source 0\n    \
        target 2\n  \
        ]\n  \
        edge [\n    \
        source 0\n    \
        target 3\n  \
        ]\n\
        ]\n",
    ),
    // A session begins with first arrangements, and first ones come back.
    (
        STAR_WITH_START,
        b"whole 0\n\
        nextwhole 0\n\
        whole 0\n\
        nextwhole 0\n\
        undo\n\
        undo\n",
        b"whole 0 | 0: 0 1 2; 1: 0; 2: 1; 3: 2\n\
        ok\n\
        whole 0 | 0: 0 2 1; 1: 0; 2: 1; 3: 2\n\
        end\n\
        ok\n\
        error 8\n",
    ),
    // So does one whose blocks are mixed in the file and start at other members.
    (
        TWO_K4,
        b"whole 0\n\
        rank 1\n\
        regroup 3 2 5 6 8 7 4\n\
        whole 0\n\
        first 1\n\
        whole 0\n",
        b"whole 0 | 0: 0 1 2; 1: 0 4 3; 2: 1 3 5; 3: 2 5 4 6 8 7; 4: 6 9 10; 5: 7 11 9; 6: 8 10 11\n\
        rank 1\n\
        ok\n\
        whole 0 | 0: 0 1 2; 1: 0 4 3; 2: 1 3 5; 3: 2 5 6 8 7 4; 4: 6 9 10; 5: 7 11 9; 6: 8 10 11\n\
        ok\n\
        whole 0 | 0: 0 1 2; 1: 0 4 3; 2: 1 3 5; 3: 2 5 4 6 7 8; 4: 6 10 9; 5: 7 9 11; 6: 8 11 10\n",
    ),
];

#[test]
fn files_and_arrangements(rt: HostRuntime) -> Result<(), Fail> {
    assert!(rt; are_answers(rt.alloc(), &FILES)?);
    Ok(())
}

// Scripts with a line that is no command, and its number.
static NO_COMMANDS: [(&[u8], &[u8]); 12] = [
    (b"whole", b"refused script line 1\n"),
    (b"whole 0\nwhole 0 0", b"refused script line 2\n"),
    (b"whole 4294967296", b"refused script line 1\n"),
    (b"Whole 0", b"refused script line 1\n"),
    (b"regroup 0", b"refused script line 1\n"),
    (b"regroup 0 0: 1", b"refused script line 1\n"),
    (b"nextwhole 0 1", b"refused script line 1\n"),
    (b"listwhole 0", b"refused script line 1\n"),
    (b"listwhole 0 0", b"refused script line 1\n"),
    (
        b"listwhole 0 10000\nlistwhole 0 10001",
        b"refused script line 2\n",
    ),
    (b"convertwhole 0 to 0: 0", b"refused script line 1\n"),
    (b"convertwhole 0 1: 0; 0: 0", b"refused script line 1\n"),
];

#[test]
fn lines_that_are_no_commands(rt: HostRuntime) -> Result<(), Fail> {
    for (script, text) in NO_COMMANDS {
        let (found, written) = answer(rt.alloc(), (STAR, script), (&[], &[]), 1000)?;
        assert_eq!(rt; found, Status::ScriptRefused);
        assert_eq!(rt; written.as_slice(), text);
    }
    Ok(())
}

// All plane rotation systems of K4 with an edge at its vertex 0.
static MEMBERS: [&[u8]; 6] = [
    b"0: 0 1 2 6; 1: 0 4 3; 2: 1 3 5; 3: 2 5 4; 4: 6",
    b"0: 0 1 6 2; 1: 0 4 3; 2: 1 3 5; 3: 2 5 4; 4: 6",
    b"0: 0 6 1 2; 1: 0 4 3; 2: 1 3 5; 3: 2 5 4; 4: 6",
    b"0: 0 2 1 6; 1: 0 3 4; 2: 1 5 3; 3: 2 4 5; 4: 6",
    b"0: 0 2 6 1; 1: 0 3 4; 2: 1 5 3; 3: 2 4 5; 4: 6",
    b"0: 0 6 2 1; 1: 0 3 4; 2: 1 5 3; 3: 2 4 5; 4: 6",
];

// A text with one more line, which is a word and what comes after it.
fn with_line(alloc: Global, text: &[u8], word: &[u8], rest: &[u8]) -> Result<Vec<u8>, AllocError> {
    let mut all = Vec::from_slice(alloc, text)?;
    all.extend_from_slice(word)?;
    all.extend_from_slice(rest)?;
    all.extend_from_slice(b"\n")?;
    Ok(all)
}

// How many lines of moves there may be, and what they answer.
static MOVES: [(&[u8], &[u8]); 3] = [
    (b"moves 0\n", b""),
    (b"moves 1\n", b"ok\n"),
    (b"moves 2\n", b"ok\nok\n"),
];

// Whether the lines that lead from one of these to another are commands that lead there, each of which answers `ok`.
fn lines_lead(alloc: Global, from: &[u8], to: &[u8]) -> Result<bool, Fail> {
    let first = with_line(alloc, b"", b"convertwhole 0 ", from)?;
    let both = with_line(alloc, &first, b"convertwhole 0 ", to)?;
    let (_, before) = answer(alloc, (K4_TAIL, &first), (&[], &[]), 1000)?;
    let (_, after) = answer(alloc, (K4_TAIL, &both), (&[], &[]), 1000)?;
    let printed = after.strip_prefix(before.as_slice()).unwrap_or(b"");
    for (count, oks) in MOVES {
        if let Some(lines) = printed.strip_prefix(count) {
            let script = with_line(alloc, &first, lines, b"whole 0")?;
            let mut answers = Vec::from_slice(alloc, &before)?;
            answers.extend_from_slice(oks)?;
            let wanted = with_line(alloc, &answers, b"whole 0 | ", to)?;
            let (found, written) = answer(alloc, (K4_TAIL, &script), (&[], &[]), 1000)?;
            return Ok(found == Status::Done && written.as_slice() == wanted.as_slice());
        }
    }
    Ok(false)
}

#[test]
fn lines_of_conversions_are_commands(rt: HostRuntime) -> Result<(), Fail> {
    for from in MEMBERS {
        for to in MEMBERS {
            assert!(rt; lines_lead(rt.alloc(), from, to)?);
        }
    }
    Ok(())
}
