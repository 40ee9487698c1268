// Worked sessions: moves, locks and history, lists, ranks and conversions, over devices in memory.
use super::rows::{Row, are_answers};
use std::test::Fail;

// Graphs with scripts, and the answers to them.
static MOVES: [Row; 10] = [
    // Refusals on three parallel edges, and one change taken back.
    Row {
        vertices: &[b"0", b"1"],
        edges: &[(b"0", b"1")],
        times: 3,
        script: b"permute 0 0 1 2 0\n\
            show 0\n\
            permute 0 0 0 0 1\n\
            flip 0 0\n\
            flip 0 1\n\
            flip 1 0\n\
            undo\n\
            undo\n",
        answers: b"ok\n\
            rotation 0 | 0: 0 1 2; 1: 0 2 1\n\
            error 4\n\
            error 3\n\
            error 2\n\
            error 1\n\
            ok\n\
            error 8\n",
    },
    // Undo and redo on K4.
    Row {
        vertices: &[b"0", b"1", b"2", b"3"],
        edges: &[
            (b"0", b"1"),
            (b"0", b"2"),
            (b"0", b"3"),
            (b"1", b"2"),
            (b"1", b"3"),
            (b"2", b"3"),
        ],
        times: 1,
        script: b"undo\n\
            flip 0 0\n\
            undo\n\
            redo\n\
            show 0\n\
            redo\n",
        answers: b"error 8\n\
            ok\n\
            ok\n\
            ok\n\
            rotation 0 | 0: 0 2 1; 1: 0 3 4; 2: 1 5 3; 3: 2 4 5\n\
            error 9\n",
    },
    // K3,3 and a triangle: one block is not planar.
    Row {
        vertices: &[b"0", b"1", b"2", b"3", b"4", b"5", b"6", b"7"],
        edges: &[
            (b"0", b"3"),
            (b"0", b"4"),
            (b"0", b"5"),
            (b"1", b"3"),
            (b"1", b"4"),
            (b"1", b"5"),
            (b"2", b"3"),
            (b"2", b"4"),
            (b"2", b"5"),
            (b"5", b"6"),
            (b"6", b"7"),
            (b"5", b"7"),
        ],
        times: 1,
        script: b"mirror 0\n\
            show 1\n\
            mirror 1\n\
            show 0\n\
            flip 0 0\n\
            lock 0 0\n\
            lock 1 0\n\
            flip 1 0\n",
        answers: b"error 5\n\
            rotation 1 | 5: 9 11; 6: 9 10; 7: 10 11\n\
            ok\n\
            error 5\n\
            error 5\n\
            error 5\n\
            error 3\n\
            error 3\n",
    },
    // A flip of one of two K4 on an edge, and the same flip again.
    Row {
        vertices: &[b"0", b"1", b"2", b"3", b"4", b"5"],
        edges: &[
            (b"0", b"1"),
            (b"0", b"2"),
            (b"0", b"3"),
            (b"1", b"2"),
            (b"1", b"3"),
            (b"2", b"3"),
            (b"0", b"4"),
            (b"0", b"5"),
            (b"1", b"4"),
            (b"1", b"5"),
            (b"4", b"5"),
        ],
        times: 1,
        script: b"show 0\n\
            flip 0 1\n\
            show 0\n\
            flip 0 1\n\
            show 0\n",
        answers: b"rotation 0 | 0: 0 1 2 6 7; 1: 0 9 8 4 3; 2: 1 3 5; 3: 2 5 4; 4: 6 8 10; 5: 7 10 9\n\
            ok\n\
            rotation 0 | 0: 0 2 1 6 7; 1: 0 9 8 3 4; 2: 1 5 3; 3: 2 4 5; 4: 6 8 10; 5: 7 10 9\n\
            ok\n\
            rotation 0 | 0: 0 1 2 6 7; 1: 0 9 8 4 3; 2: 1 3 5; 3: 2 5 4; 4: 6 8 10; 5: 7 10 9\n",
    },
    // The groups of the bond permuted.
    Row {
        vertices: &[b"0", b"1", b"2", b"3", b"4", b"5"],
        edges: &[
            (b"0", b"1"),
            (b"0", b"2"),
            (b"0", b"3"),
            (b"1", b"2"),
            (b"1", b"3"),
            (b"2", b"3"),
            (b"0", b"4"),
            (b"0", b"5"),
            (b"1", b"4"),
            (b"1", b"5"),
            (b"4", b"5"),
        ],
        times: 1,
        script: b"permute 0 0 0 6 1\n\
            show 0\n",
        answers: b"ok\n\
            rotation 0 | 0: 0 6 7 1 2; 1: 0 4 3 9 8; 2: 1 3 5; 3: 2 5 4; 4: 6 8 10; 5: 7 10 9\n",
    },
    // A refused command between undo and redo keeps what can be redone.
    Row {
        vertices: &[b"0", b"1", b"2", b"3", b"4", b"5"],
        edges: &[
            (b"0", b"1"),
            (b"0", b"2"),
            (b"0", b"3"),
            (b"1", b"2"),
            (b"1", b"3"),
            (b"2", b"3"),
            (b"0", b"4"),
            (b"0", b"5"),
            (b"1", b"4"),
            (b"1", b"5"),
            (b"4", b"5"),
        ],
        times: 1,
        script: b"flip 0 1\n\
            undo\n\
            flip 0 0\n\
            redo\n\
            show 0\n\
            redo\n",
        answers: b"ok\n\
            ok\n\
            error 3\n\
            ok\n\
            rotation 0 | 0: 0 2 1 6 7; 1: 0 9 8 3 4; 2: 1 5 3; 3: 2 4 5; 4: 6 8 10; 5: 7 10 9\n\
            error 9\n",
    },
    // A permute to the present order is a change: it can be undone, and nothing can be redone after it.
    Row {
        vertices: &[b"0", b"1", b"2", b"3", b"4", b"5"],
        edges: &[
            (b"0", b"1"),
            (b"0", b"2"),
            (b"0", b"3"),
            (b"1", b"2"),
            (b"1", b"3"),
            (b"2", b"3"),
            (b"0", b"4"),
            (b"0", b"5"),
            (b"1", b"4"),
            (b"1", b"5"),
            (b"4", b"5"),
        ],
        times: 1,
        script: b"flip 0 1\n\
            undo\n\
            permute 0 0 0 1 6\n\
            redo\n\
            undo\n\
            undo\n",
        answers: b"ok\n\
            ok\n\
            ok\n\
            error 9\n\
            ok\n\
            error 8\n",
    },
    // A mirror image is taken back.
    Row {
        vertices: &[b"0", b"1", b"2", b"3"],
        edges: &[
            (b"0", b"1"),
            (b"0", b"2"),
            (b"0", b"3"),
            (b"1", b"2"),
            (b"1", b"3"),
            (b"2", b"3"),
        ],
        times: 1,
        script: b"mirror 0\n\
            show 0\n\
            undo\n\
            show 0\n\
            mirror 0\n\
            mirror 0\n\
            show 0\n",
        answers: b"ok\n\
            rotation 0 | 0: 0 2 1; 1: 0 3 4; 2: 1 5 3; 3: 2 4 5\n\
            ok\n\
            rotation 0 | 0: 0 1 2; 1: 0 4 3; 2: 1 3 5; 3: 2 5 4\n\
            ok\n\
            ok\n\
            rotation 0 | 0: 0 1 2; 1: 0 4 3; 2: 1 3 5; 3: 2 5 4\n",
    },
    // Locks: they refuse, and undo takes them back.
    Row {
        vertices: &[b"0", b"1", b"2", b"3", b"4", b"5"],
        edges: &[
            (b"0", b"1"),
            (b"0", b"2"),
            (b"0", b"3"),
            (b"1", b"2"),
            (b"1", b"3"),
            (b"2", b"3"),
            (b"0", b"4"),
            (b"0", b"5"),
            (b"1", b"4"),
            (b"1", b"5"),
            (b"4", b"5"),
        ],
        times: 1,
        script: b"lock 0 0\n\
            count 0\n\
            permute 0 0 0 6 1\n\
            permute 0 0 0 0 1\n\
            mirror 0\n\
            convert 0 rank 3\n\
            undo\n\
            undo\n\
            count 0\n",
        answers: b"ok\n\
            count 4\n\
            error 12 0\n\
            error 4\n\
            error 12 0\n\
            moves 2\n\
            flip 1\n\
            flip 2\n\
            ok\n\
            ok\n\
            count 8\n",
    },
    // A locked node is freed; a lock that is set already is a change.
    Row {
        vertices: &[b"0", b"1", b"2", b"3"],
        edges: &[
            (b"0", b"1"),
            (b"0", b"2"),
            (b"0", b"3"),
            (b"1", b"2"),
            (b"1", b"3"),
            (b"2", b"3"),
        ],
        times: 1,
        script: b"lock 0 0\n\
            flip 0 0\n\
            lock 0 0\n\
            undo\n\
            flip 0 0\n\
            unlock 0 0\n\
            flip 0 0\n\
            unlock 0 0\n\
            lock 0 1\n\
            lock 1 0\n",
        answers: b"ok\n\
            error 12 0\n\
            ok\n\
            ok\n\
            error 12 0\n\
            ok\n\
            ok\n\
            ok\n\
            error 2\n\
            error 1\n",
    },
];

// Graphs with scripts, and the answers to them.
static LISTS: [Row; 20] = [
    // One edge.
    Row {
        vertices: &[b"0", b"1"],
        edges: &[(b"0", b"1")],
        times: 1,
        script: b"count 0\n\
            next 0\n\
            show 0\n",
        answers: b"count 1\n\
            end\n\
            rotation 0 | 0: 0; 1: 0\n",
    },
    // Two parallel edges.
    Row {
        vertices: &[b"0", b"1"],
        edges: &[(b"0", b"1")],
        times: 2,
        script: b"count 0\n\
            next 0\n",
        answers: b"count 1\n\
            end\n",
    },
    // Three parallel edges: two members.
    Row {
        vertices: &[b"0", b"1"],
        edges: &[(b"0", b"1")],
        times: 3,
        script: b"show 0\n\
            next 0\n\
            show 0\n\
            next 0\n",
        answers: b"rotation 0 | 0: 0 1 2; 1: 0 2 1\n\
            ok\n\
            rotation 0 | 0: 0 2 1; 1: 0 1 2\n\
            end\n",
    },
    // A square with a diagonal.
    Row {
        vertices: &[b"0", b"1", b"2", b"3"],
        edges: &[
            (b"0", b"1"),
            (b"1", b"2"),
            (b"2", b"3"),
            (b"3", b"0"),
            (b"0", b"2"),
        ],
        times: 1,
        script: b"show 0\n\
            count 0\n",
        answers: b"rotation 0 | 0: 0 3 4; 1: 0 1; 2: 1 4 2; 3: 2 3\n\
            count 2\n",
    },
    // K2,3.
    Row {
        vertices: &[b"0", b"1", b"2", b"3", b"4"],
        edges: &[
            (b"0", b"2"),
            (b"1", b"2"),
            (b"0", b"3"),
            (b"1", b"3"),
            (b"0", b"4"),
            (b"1", b"4"),
        ],
        times: 1,
        script: b"count 0\n\
            list 0 5\n",
        answers: b"count 2\n\
            list 0 1\n\
            rotation 0 | 0: 0 4 2; 1: 1 3 5; 2: 0 1; 3: 2 3; 4: 4 5\n\
            end\n",
    },
    // A pentagon.
    Row {
        vertices: &[b"0", b"1", b"2", b"3", b"4"],
        edges: &[
            (b"0", b"1"),
            (b"1", b"2"),
            (b"2", b"3"),
            (b"3", b"4"),
            (b"4", b"0"),
        ],
        times: 1,
        script: b"count 0\n\
            flip 0 0\n",
        answers: b"count 1\n\
            error 3\n",
    },
    // Two K4 on an edge: ranks, and moves between members.
    Row {
        vertices: &[b"0", b"1", b"2", b"3", b"4", b"5"],
        edges: &[
            (b"0", b"1"),
            (b"0", b"2"),
            (b"0", b"3"),
            (b"1", b"2"),
            (b"1", b"3"),
            (b"2", b"3"),
            (b"0", b"4"),
            (b"0", b"5"),
            (b"1", b"4"),
            (b"1", b"5"),
            (b"4", b"5"),
        ],
        times: 1,
        script: b"show 0\n\
            count 0\n\
            convert 0 rank 7\n\
            convert 0 rank 7\n\
            rank 0\n\
            undo\n\
            undo\n\
            undo\n\
            rank 0\n\
            permute 0 0 0 6 1\n\
            rank 0\n\
            goto 0 8\n",
        answers: b"rotation 0 | 0: 0 1 2 6 7; 1: 0 9 8 4 3; 2: 1 3 5; 3: 2 5 4; 4: 6 8 10; 5: 7 10 9\n\
            count 8\n\
            moves 3\n\
            permute 0 0 6 1\n\
            flip 1\n\
            flip 2\n\
            moves 0\n\
            rank 7\n\
            ok\n\
            ok\n\
            error 8\n\
            rank 0\n\
            ok\n\
            rank 4\n\
            error 11 8\n",
    },
    // Two K4 without the edge.
    Row {
        vertices: &[b"0", b"1", b"2", b"3", b"4", b"5"],
        edges: &[
            (b"0", b"2"),
            (b"0", b"3"),
            (b"1", b"2"),
            (b"1", b"3"),
            (b"2", b"3"),
            (b"0", b"4"),
            (b"0", b"5"),
            (b"1", b"4"),
            (b"1", b"5"),
            (b"4", b"5"),
        ],
        times: 1,
        script: b"count 0\n\
            show 0\n\
            next 0\n\
            list 0 1\n",
        answers: b"count 4\n\
            rotation 0 | 0: 0 1 5 6; 1: 2 8 7 3; 2: 0 2 4; 3: 1 4 3; 4: 5 7 9; 5: 6 9 8\n\
            ok\n\
            list 0 1\n\
            rotation 0 | 0: 0 5 6 1; 1: 2 3 8 7; 2: 0 4 2; 3: 1 3 4; 4: 5 7 9; 5: 6 9 8\n\
            more\n",
    },
    // Of 35 parallel edges the members are counted.
    Row {
        vertices: &[b"0", b"1"],
        edges: &[(b"0", b"1")],
        times: 35,
        script: b"count 0\n",
        answers: b"count 295232799039604140847618609643520000000\n",
    },
    // Of 36 they are more than 2^128, but for locks.
    Row {
        vertices: &[b"0", b"1"],
        edges: &[(b"0", b"1")],
        times: 36,
        script: b"count 0\n\
            rank 0\n\
            goto 0 0\n\
            convert 0 rank 0\n\
            next 0\n\
            show 0\n\
            lock 0 0\n\
            count 0\n\
            next 0\n",
        answers: b"error 10\n\
            error 10\n\
            error 10\n\
            error 10\n\
            ok\n\
            rotation 0 | 0: 0 1 2 3 4 5 6 7 8 9 10 11 12 13 14 15 16 17 18 19 20 21 22 23 24 25 26 27 28 29 30 31 32 33 35 34; 1: 0 34 35 33 32 31 30 29 28 27 26 25 24 23 22 21 20 19 18 17 16 15 14 13 12 11 10 9 8 7 6 5 4 3 2 1\n\
            ok\n\
            count 1\n\
            end\n",
    },
    // K4: its members, and what is taken in.
    Row {
        vertices: &[b"0", b"1", b"2", b"3"],
        edges: &[
            (b"0", b"1"),
            (b"0", b"2"),
            (b"0", b"3"),
            (b"1", b"2"),
            (b"1", b"3"),
            (b"2", b"3"),
        ],
        times: 1,
        script: b"goto 0 2\n\
            take 0 0: 0 1 2; 1: 0 4 3; 2: 1 3 5; 3: 2 4 5\n\
            take 0 0: 0 2 1; 1: 0 3 4; 2: 1 5 3; 3: 2 4 5\n\
            rank 0\n\
            convert 0 to 0: 0 1 2; 1: 0 4 3; 2: 1 3 5; 3: 2 5 4\n\
            convert 0 to 0: 0 1 2; 1: 0 4 3; 2: 1 3 5; 3: 2 5 4\n\
            rank 0\n",
        answers: b"error 11 2\n\
            error 7 4 6 2\n\
            ok\n\
            rank 1\n\
            moves 1\n\
            flip 0\n\
            moves 0\n\
            rank 0\n",
    },
    // To a member that is given.
    Row {
        vertices: &[b"0", b"1", b"2", b"3", b"4", b"5"],
        edges: &[
            (b"0", b"2"),
            (b"0", b"3"),
            (b"1", b"2"),
            (b"1", b"3"),
            (b"2", b"3"),
            (b"0", b"4"),
            (b"0", b"5"),
            (b"1", b"4"),
            (b"1", b"5"),
            (b"4", b"5"),
        ],
        times: 1,
        script: b"convert 0 to 0: 0 5 6 1; 1: 2 3 8 7; 2: 0 4 2; 3: 1 3 4; 4: 5 7 9; 5: 6 9 8\n\
            rank 0\n\
            convert 0 to 0: 0 1 5\n",
        answers: b"moves 1\n\
            flip 0\n\
            rank 2\n\
            error 6 0\n",
    },
    // A triangle beside a block that is not planar.
    Row {
        vertices: &[b"0", b"1", b"2", b"3", b"4", b"5", b"6", b"7"],
        edges: &[
            (b"0", b"3"),
            (b"0", b"4"),
            (b"0", b"5"),
            (b"1", b"3"),
            (b"1", b"4"),
            (b"1", b"5"),
            (b"2", b"3"),
            (b"2", b"4"),
            (b"2", b"5"),
            (b"5", b"6"),
            (b"6", b"7"),
            (b"5", b"7"),
        ],
        times: 1,
        script: b"take 1 5: 11 9; 6: 10 9; 7: 11 10\n\
            show 1\n\
            take 1 0: 0\n\
            take 0 0: 0\n\
            count 0\n\
            list 0 1\n\
            next 0\n",
        answers: b"ok\n\
            rotation 1 | 5: 9 11; 6: 9 10; 7: 10 11\n\
            error 6 0\n\
            error 5\n\
            error 5\n\
            error 5\n\
            error 5\n",
    },
    // What is taken in keeps the choices of locked nodes.
    Row {
        vertices: &[b"0", b"1", b"2", b"3"],
        edges: &[
            (b"0", b"1"),
            (b"0", b"2"),
            (b"0", b"3"),
            (b"1", b"2"),
            (b"1", b"3"),
            (b"2", b"3"),
        ],
        times: 1,
        script: b"lock 0 0\n\
            take 0 0: 0 2 1; 1: 0 3 4; 2: 1 5 3; 3: 2 4 5\n\
            convert 0 to 0: 0 2 1; 1: 0 3 4; 2: 1 5 3; 3: 2 4 5\n\
            take 0 0: 0 1 2; 1: 0 4 3; 2: 1 3 5; 3: 2 5 4\n\
            count 0\n",
        answers: b"ok\n\
            error 12 0\n\
            error 12 0\n\
            ok\n\
            count 1\n",
    },
    // A next that returns end keeps what can be redone, one that returns ok drops it.
    Row {
        vertices: &[b"0", b"1", b"2", b"3"],
        edges: &[
            (b"0", b"1"),
            (b"0", b"2"),
            (b"0", b"3"),
            (b"1", b"2"),
            (b"1", b"3"),
            (b"2", b"3"),
        ],
        times: 1,
        script: b"goto 0 1\n\
            lock 0 0\n\
            undo\n\
            next 0\n\
            redo\n\
            undo\n\
            undo\n\
            next 0\n\
            redo\n",
        answers: b"ok\n\
            ok\n\
            ok\n\
            end\n\
            ok\n\
            ok\n\
            ok\n\
            ok\n\
            error 9\n",
    },
    // The first member, from any other.
    Row {
        vertices: &[b"0", b"1", b"2", b"3"],
        edges: &[
            (b"0", b"1"),
            (b"0", b"2"),
            (b"0", b"3"),
            (b"1", b"2"),
            (b"1", b"3"),
            (b"2", b"3"),
        ],
        times: 1,
        script: b"next 0\n\
            first 0\n\
            rank 0\n\
            first 1\n\
            next 1\n\
            goto 1 0\n",
        answers: b"ok\n\
            ok\n\
            rank 0\n\
            error 1\n\
            error 1\n\
            error 1\n",
    },
    // The longest face of three paths of 1, 2 and 3 edges, of one edge, and the codes; nothing changes, and locks are not looked at.
    Row {
        vertices: &[
            b"0", b"1", b"2", b"3", b"4", b"5", b"6", b"7", b"8", b"9", b"10",
        ],
        edges: &[
            (b"0", b"1"),
            (b"0", b"2"),
            (b"2", b"1"),
            (b"0", b"3"),
            (b"3", b"4"),
            (b"4", b"1"),
            (b"1", b"5"),
            (b"5", b"8"),
            (b"5", b"9"),
            (b"5", b"10"),
            (b"6", b"8"),
            (b"6", b"9"),
            (b"6", b"10"),
            (b"7", b"8"),
            (b"7", b"9"),
            (b"7", b"10"),
        ],
        times: 1,
        script: b"longest 0\n\
            longest 1\n\
            longest 2\n\
            longest 3\n\
            undo\n\
            lock 0 0\n\
            longest 0\n\
            undo\n",
        answers: b"longest 5\n\
            moves 0\n\
            longest 2\n\
            moves 0\n\
            error 5\n\
            error 1\n\
            error 8\n\
            ok\n\
            longest 5\n\
            moves 0\n\
            ok\n",
    },
    // Two edges and two paths of 3 edges: with the paths side by side there is a face of length 6.
    Row {
        vertices: &[b"0", b"1", b"2", b"3", b"4", b"5"],
        edges: &[
            (b"0", b"2"),
            (b"2", b"3"),
            (b"3", b"1"),
            (b"0", b"1"),
            (b"0", b"4"),
            (b"4", b"5"),
            (b"5", b"1"),
            (b"0", b"1"),
        ],
        times: 1,
        script: b"permute 0 0 0 4 3 7\n\
            longest 0\n\
            permute 0 0 0 3 7 4\n\
            longest 0\n",
        answers: b"ok\n\
            longest 6\n\
            moves 0\n\
            ok\n\
            longest 6\n\
            moves 0\n",
    },
    // A drawing of one edge, and the codes; nothing changes.
    Row {
        vertices: &[b"0", b"1", b"2", b"3", b"4", b"5", b"6", b"7", b"8"],
        edges: &[
            (b"0", b"1"),
            (b"1", b"2"),
            (b"2", b"1"),
            (b"3", b"6"),
            (b"3", b"7"),
            (b"3", b"8"),
            (b"4", b"6"),
            (b"4", b"7"),
            (b"4", b"8"),
            (b"5", b"6"),
            (b"5", b"7"),
            (b"5", b"8"),
        ],
        times: 1,
        script: b"draw 0\n\
            draw 1\n\
            draw 2\n\
            draw 3\n\
            undo\n",
        answers: b"draw 0 2\n\
            point 0 0 0\n\
            point 1 1 0\n\
            error 13 1 2\n\
            error 5\n\
            error 1\n\
            error 8\n",
    },
    // A triangle with two doubled edges: of the two pairs the one with the least edge is reported.
    Row {
        vertices: &[b"0", b"1", b"2"],
        edges: &[
            (b"0", b"1"),
            (b"1", b"2"),
            (b"2", b"0"),
            (b"2", b"1"),
            (b"1", b"0"),
        ],
        times: 1,
        script: b"draw 0\n",
        answers: b"error 13 0 4\n",
    },
];

#[test]
fn moves_locks_and_history(rt: HostRuntime) -> Result<(), Fail> {
    assert!(rt; are_answers(rt.alloc(), &MOVES)?);
    Ok(())
}

#[test]
fn lists_ranks_and_conversions(rt: HostRuntime) -> Result<(), Fail> {
    assert!(rt; are_answers(rt.alloc(), &LISTS)?);
    Ok(())
}
