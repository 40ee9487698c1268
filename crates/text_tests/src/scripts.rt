// Scripts and texts, as a reader of the format would work them out.
ghost use Rattle.std.specs.Prelude.{◌≡◌, ◌<◌, true, All};
ghost use Rattle.multigraph.specs.Graph.{edge_count};
ghost use Rattle.rotations.specs.Rotation.{IsRotationSystem};

use faces::{Euler, trace};
use gml_graph::GraphFault;
use gml_text::GmlFault;
use kuratowski::{Pattern, Subdivision, is_subdivision};
use moves::{Keys, Move};
use multigraph::{Graph, NumberLists, Numbers, Part};
use rotations::{Lists, Rotation};
use spqr_script::*;
use std::alloc::{AllocError, Global};
use std::test::*;

// How many commands the script spells, and its first bad line, or 0.
fn outcome(alloc: Global, script: &str) -> Result<(usize, u32), AllocError> {
    let bytes = script.as_bytes();
    if bytes.len() > 1000 {
        return Ok((0, 0));
    }
    match read(alloc, bytes) {
        Ok(commands) => Ok((commands.len(), 0)),
        Err(ScriptFault::BadLine(line)) => Ok((0, line)),
        Err(ScriptFault::Memory) => Err(AllocError),
    }
}

// Lines that are commands, each alone.
static COMMANDS: [&str; 53] = [
    "euler",
    "euler 0:",
    "euler 0: 0 1 2; 1: 0 4 3; 2: 1 3 5; 3: 2 5 4",
    "euler 0:0 1;1:0",
    "euler 0: 4294967295",
    "euler 00: 0004",
    "euler 0 : 1 ;2:",
    "\t euler\t0:\t1 \t",
    "gml",
    " gml\t\n",
    "gml\r\n",
    "gml \r",
    "# c\ngml",
    "show 0",
    "show 0000",
    "show 4294967295",
    "show\t7 \r\n",
    "faces 1",
    "flip 0 2",
    "permute 0 00 7",
    "permute 0 0 0 6 1\t",
    "mirror 4294967295",
    "undo",
    " redo ",
    "first 0",
    "next 3",
    "list 0 1",
    "list 0 0010000",
    "goto 0 340282366920938463463374607431768211455",
    "count 0",
    "longest 0",
    "draw 0",
    "rank 0",
    "convert 0 rank 7",
    "convert 0 rank 0340282366920938463463374607431768211455",
    "convert 0 to",
    "convert 0 to 0: 0 1; 1: 1 0",
    "convert 0\tto 0:0",
    "take 0",
    "take 00 0: 0 2 1; 1: 0 3 4",
    "lock 0 4294967295",
    "unlock 1 1",
    "whole 0",
    "whole\t4294967295 ",
    "regroup 0 3",
    "regroup 07 3 5 0002 3",
    "nextwhole 1",
    "listwhole 0 1",
    "listwhole 3 010000\r",
    "convertwhole 1",
    "convertwhole 1 6:",
    " convertwhole 0 0: 0 5 3 2;1:0 1",
    "\n \t\n\r\n#\n\t# euler 0\ngml\n",
];

#[test]
fn lines_that_are_commands(rt: HostRuntime) -> Result<(), Fail> {
    for row in &COMMANDS {
        assert_eq!(rt; outcome(rt.alloc(), row)?, (1, 0));
    }
    assert_eq!(rt; outcome(rt.alloc(), "")?, (0, 0));
    assert_eq!(rt; outcome(rt.alloc(), "gml\neuler\n\ngml")?, (3, 0));
    Ok(())
}

// Lines that are nearly commands.
static NO_COMMANDS: [&str; 112] = [
    "EULER",
    "eule",
    "euler 0",
    "euler 0: 0;",
    "euler ;0: 0",
    "euler 0: 0;; 1: 0",
    "euler 1: 0; 0: 1",
    "euler 0: 0; 0: 1",
    "euler 0: 4294967296",
    "euler 4294967296:",
    "euler 0: -1",
    "euler 0: +1",
    "euler 0: 0: 1",
    "euler: 0",
    "euler0: 0",
    "gml 1",
    "gml;",
    "\r\r",
    "gml\r ",
    "gml\r\r\n",
    "gml\0",
    "\0",
    "shwo 0",
    "show",
    "show 4294967296",
    "show 0 1",
    "show 0 ;",
    "show 0:",
    "show x",
    "Show 0",
    "faces",
    "faces 0 0",
    "face 0",
    "flip 0",
    "flip 0 0 0",
    "flip 0 4294967296",
    "permute 0 0",
    "permute 0 0 1 x",
    "permute 0 0 4294967296",
    "mirror",
    "mirror 0 0",
    "undo 1",
    "redo # one",
    "first",
    "next 0 1",
    "next -1",
    "list 0",
    "list 0 0",
    "list 0 10001",
    "list 0 1 1",
    "list 0 4294967297",
    "goto 0",
    "goto 0 340282366920938463463374607431768211456",
    "goto 4294967296 0",
    "goto 0 1 2",
    "count",
    "count 0 0",
    "longest",
    "longest 0 0",
    "draw",
    "draw 0 0",
    "rank 0 0",
    "convert 0",
    "convert 0 rank",
    "convert 0 rank 340282366920938463463374607431768211456",
    "convert 0 rank 1 1",
    "convert 0 rank 0: 0",
    "convert rank 0",
    "convert 0 to 7",
    "convert 0 to 1: 0; 0: 1",
    "convert 0 To 0: 0",
    "convert 0 0: 0",
    "convert: 0 to",
    "take",
    "take 0: 0",
    "take 0 0: 0;",
    "take 0 to 0: 0",
    "lock 0",
    "unlock 0 0 0",
    "unlocks 0 0",
    "whole",
    "whole 0 0",
    "whole 4294967296",
    "whole 0:",
    "whole x",
    "Whole 0",
    "whole0",
    "regroup",
    "regroup 0",
    "regroup 0 1 x",
    "regroup 0: 1 2",
    "regroup 0 1; 2",
    "regroup 4294967296 1",
    "regroup 0 4294967296",
    "regroup 0 -1",
    "nextwhole",
    "nextwhole 0 1",
    "next whole 0",
    "nextWhole 0",
    "listwhole",
    "listwhole 0",
    "listwhole 0 0",
    "listwhole 0 10001",
    "listwhole 0 1 1",
    "listwhole 0 4294967297",
    "list whole 0 1",
    "convertwhole",
    "convertwhole 0: 0",
    "convertwhole 0 0: 0;",
    "convertwhole 0 1: 0; 0: 1",
    "convertwhole 0 to 0: 0",
    "convertwhole 4294967296",
];

#[test]
fn lines_that_are_none(rt: HostRuntime) -> Result<(), Fail> {
    for row in &NO_COMMANDS {
        assert_eq!(rt; outcome(rt.alloc(), row)?, (0, 1));
    }
    assert_eq!(rt; outcome(rt.alloc(), "# c\nlist 0 10001")?, (0, 2));
    assert_eq!(rt; outcome(rt.alloc(), "gml\n\n# c\r\ngml\nx\ny\n")?, (0, 5));
    Ok(())
}

#[test]
fn entries_in_order(rt: HostRuntime) -> Result<(), Fail> {
    let commands = read(
        rt.alloc(),
        b"euler 3: 1 0; 007: ;9:2\ntake 4 8: 6\nconvert 5 to",
    )
    .ok()
    .ok_or("the bytes are three commands")?;
    assert_eq!(rt; commands.len(), 3);
    if let Command::Euler(lists) = &commands[0] {
        assert_eq!(rt; lists.len(), 3);
        assert_eq!(rt; lists.vertex(0), 3);
        assert_eq!(rt; lists.edges(0), [1, 0].as_slice());
        assert_eq!(rt; lists.vertex(1), 7);
        assert_eq!(rt; lists.edges(1).len(), 0);
        assert_eq!(rt; lists.vertex(2), 9);
        assert_eq!(rt; lists.edges(2), [2].as_slice());
    } else {
        return Err("the first is `euler`".into());
    }
    if let Command::Take(b, lists) = &commands[1] {
        assert_eq!(rt; (*b, lists.len()), (4, 1));
    } else {
        return Err("the second is `take`".into());
    }
    if let Command::ConvertTo(b, lists) = &commands[2] {
        assert_eq!(rt; (*b, lists.len()), (5, 0));
    } else {
        return Err("the third is `convert`".into());
    }
    Ok(())
}

#[test]
fn numbers_in_order(rt: HostRuntime) -> Result<(), Fail> {
    let script =
        b"show 07\nflip 1 2\npermute 3 4 9 0 9\nlist 5 10\ngoto 6 8\nconvert 7 rank 0\nunlock 8 9";
    let commands = read(rt.alloc(), script)
        .ok()
        .ok_or("the bytes are seven commands")?;
    assert_eq!(rt; commands.len(), 7);
    assert!(rt; matches!(commands[0], Command::Show(7)));
    assert!(rt; matches!(commands[1], Command::Flip(1, 2)));
    if let Command::Permute(b, k, keys) = &commands[2] {
        assert_eq!(rt; (*b, *k), (3, 4));
        assert_eq!(rt; keys.as_slice(), [9, 0, 9].as_slice());
    } else {
        return Err("the third is `permute`".into());
    }
    assert!(rt; matches!(commands[3], Command::List(5, 10)));
    assert!(rt; matches!(commands[4], Command::Goto(6, 8)));
    assert!(rt; matches!(commands[5], Command::ConvertRank(7, 0)));
    assert!(rt; matches!(commands[6], Command::Unlock(8, 9)));
    Ok(())
}

#[test]
fn components_in_order(rt: HostRuntime) -> Result<(), Fail> {
    let script =
        b"whole 07\nregroup 4 6 0 6\nnextwhole 1\nlistwhole 5 10\nconvertwhole 2 6:;8: 9 7";
    let commands = read(rt.alloc(), script)
        .ok()
        .ok_or("the bytes are five commands")?;
    assert_eq!(rt; commands.len(), 5);
    assert!(rt; matches!(commands[0], Command::Whole(7)));
    if let Command::Regroup(v, edges) = &commands[1] {
        assert_eq!(rt; *v, 4);
        assert_eq!(rt; edges.as_slice(), [6, 0, 6].as_slice());
    } else {
        return Err("the second is `regroup`".into());
    }
    assert!(rt; matches!(commands[2], Command::NextWhole(1)));
    assert!(rt; matches!(commands[3], Command::ListWhole(5, 10)));
    if let Command::ConvertWhole(c, lists) = &commands[4] {
        assert_eq!(rt; (*c, lists.len()), (2, 2));
        assert_eq!(rt; (lists.vertex(0), lists.edges(0).len()), (6, 0));
        assert_eq!(rt; (lists.vertex(1), lists.edges(1).len()), (8, 2));
    } else {
        return Err("the fifth is `convertwhole`".into());
    }
    Ok(())
}

#[test]
fn numbers(rt: HostRuntime) {
    assert_eq!(rt; number(b"0"), Some(0));
    assert_eq!(rt; number(b"0010"), Some(10));
    assert_eq!(rt;
        number(b"340282366920938463463374607431768211455"),
        Some(u128::MAX)
    );
    assert_eq!(rt; number(b"340282366920938463463374607431768211456"), None);
    assert_eq!(rt; number(b"3402823669209384634633746074317682114550"), None);
    assert_eq!(rt; number(b""), None);
    assert_eq!(rt; number(b"1a"), None);
    assert_eq!(rt; number(b"-1"), None);
}

#[test]
fn texts_of_the_head(rt: HostRuntime) -> Result<(), Fail> {
    let alloc = rt.alloc();
    assert_eq!(rt;
        graph_line(alloc, 4, 6)?.as_slice(),
        b"graph 4 6\n".as_slice()
    );
    assert_eq!(rt;
        vertex_line(alloc, 1, -2)?.as_slice(),
        b"vertex 1 -2\n".as_slice()
    );
    assert_eq!(rt; cut_line(alloc, 4)?.as_slice(), b"cut 4\n".as_slice());
    assert_eq!(rt;
        block_line(alloc, 1, &[3, 4, 5])?.as_slice(),
        b"block 1: 3 4 5\n".as_slice()
    );
    let mut out = vec![in alloc; b'x']?;
    push_vertex_line(&mut out, 0, i64::MIN)?;
    assert_eq!(rt;
        out.as_slice(),
        b"xvertex 0 -9223372036854775808\n".as_slice()
    );
    Ok(())
}

#[test]
fn texts_of_answers(rt: HostRuntime) -> Result<(), Fail> {
    let alloc = rt.alloc();
    let e = Euler {
        v: 7,
        e: 7,
        f: 4,
        c: 2,
        plane: true,
    };
    assert_eq!(rt;
        euler_line(alloc, &e)?.as_slice(),
        b"euler 7 7 4 2 plane\n".as_slice()
    );
    let e = Euler {
        v: 7,
        e: 7,
        f: 2,
        c: 2,
        plane: false,
    };
    assert_eq!(rt;
        euler_line(alloc, &e)?.as_slice(),
        b"euler 7 7 2 2 not-plane\n".as_slice()
    );
    assert_eq!(rt; ok_line(alloc)?.as_slice(), b"ok\n".as_slice());
    assert_eq!(rt; end_line(alloc)?.as_slice(), b"end\n".as_slice());
    assert_eq!(rt; more_line(alloc)?.as_slice(), b"more\n".as_slice());
    assert_eq!(rt;
        list_line(alloc, 0, 1)?.as_slice(),
        b"list 0 1\n".as_slice()
    );
    assert_eq!(rt;
        gml_lines(alloc, b"a 1\n")?.as_slice(),
        b"gml 4\na 1\n".as_slice()
    );
    assert_eq!(rt;
        error_line(alloc, 7, &[4, 6, 2])?.as_slice(),
        b"error 7 4 6 2\n".as_slice()
    );
    Ok(())
}

#[test]
fn texts_with_large_numbers(rt: HostRuntime) -> Result<(), Fail> {
    let alloc = rt.alloc();
    let count = count_line(alloc, 295232799039604140847618609643520000000)?;
    assert_eq!(rt;
        count.as_slice(),
        b"count 295232799039604140847618609643520000000\n".as_slice()
    );
    let rank = rank_line(alloc, u128::MAX)?;
    assert_eq!(rt;
        rank.as_slice(),
        b"rank 340282366920938463463374607431768211455\n".as_slice()
    );
    Ok(())
}

#[test]
fn texts_of_refusals(rt: HostRuntime) -> Result<(), Fail> {
    let alloc = rt.alloc();
    assert_eq!(rt;
        read_line(alloc, Which::GraphFile)?.as_slice(),
        b"refused read graph\n".as_slice()
    );
    assert_eq!(rt;
        read_line(alloc, Which::ScriptFile)?.as_slice(),
        b"refused read script\n".as_slice()
    );
    assert_eq!(rt;
        long_line(alloc, Which::GraphFile)?.as_slice(),
        b"refused long graph\n".as_slice()
    );
    assert_eq!(rt;
        long_line(alloc, Which::ScriptFile)?.as_slice(),
        b"refused long script\n".as_slice()
    );
    assert_eq!(rt;
        gml_line(alloc, &GmlFault::Bad(4))?.as_slice(),
        b"refused gml bad 4\n".as_slice()
    );
    assert_eq!(rt;
        gml_line(alloc, &GmlFault::End(19))?.as_slice(),
        b"refused gml end 19\n".as_slice()
    );
    assert_eq!(rt;
        script_line(alloc, 2)?.as_slice(),
        b"refused script line 2\n".as_slice()
    );
    let usage = usage_line(alloc)?;
    assert_eq!(rt;
        usage.as_slice(),
        b"usage: spqr run GRAPH SCRIPT | spqr make N SEED\n".as_slice()
    );
    Ok(())
}

#[test]
fn texts_of_rules(rt: HostRuntime) -> Result<(), Fail> {
    let alloc = rt.alloc();
    assert_eq!(rt;
        rule_line(alloc, &GraphFault::NoGraph)?.as_slice(),
        b"refused graph none\n".as_slice()
    );
    assert_eq!(rt;
        rule_line(alloc, &GraphFault::TooManyVertices(20001))?.as_slice(),
        b"refused graph vertices 20001\n".as_slice()
    );
    assert_eq!(rt;
        rule_line(alloc, &GraphFault::NodeNoId(0))?.as_slice(),
        b"refused graph node-no-id 0\n".as_slice()
    );
    assert_eq!(rt;
        rule_line(alloc, &GraphFault::SameId(1))?.as_slice(),
        b"refused graph same-id 1\n".as_slice()
    );
    assert_eq!(rt;
        rule_line(alloc, &GraphFault::Loop(2))?.as_slice(),
        b"refused graph loop 2\n".as_slice()
    );
    assert_eq!(rt;
        rule_line(alloc, &GraphFault::StartVertex(3))?.as_slice(),
        b"refused graph start-vertex 3\n".as_slice()
    );
    assert_eq!(rt;
        start_genus_line(alloc, 0, 4, 6, 2)?.as_slice(),
        b"refused graph start-genus 0 4 6 2\n".as_slice()
    );
    Ok(())
}

// The lists of these rows.
fn lists_of(alloc: Global, rows: &[(u32, &[u32])]) -> Result<Lists, AllocError> {
    let mut lists = Lists::new(alloc);
    for (v, edges) in rows {
        if lists.is_above(*v) {
            lists.push(*v, edges)?;
        }
    }
    Ok(lists)
}

// Appends the lines of the faces.
fn push_faces(
    alloc: Global,
    b: u32,
    part: &Part,
    r: &Rotation,
    out: &mut Vec<u8>,
) -> Result<(), AllocError>
    requires { IsRotationSystem part.now.graph r.now }
{
    let faces = trace(alloc, part.graph(), r)?;
    let lines = faces_lines(alloc, b, part, &faces)?;
    out.extend_from_slice(&lines)
}

// The rotation line and the lines of the faces of a block, from the lists of its rotation system.
fn plane_lines(
    alloc: Global,
    b: u32,
    part: &Part,
    rows: &[(u32, &[u32])],
) -> Result<Vec<u8>, AllocError> {
    let lists = lists_of(alloc, rows)?;
    let Ok(r) = Rotation::from_part(alloc, part, &lists) else {
        return Ok(Vec::new(alloc));
    };
    let mut out = rotation_line(alloc, b, part, &r)?;
    push_faces(alloc, b, part, &r, &mut out)?;
    Ok(out)
}

// A rotation system of a triangle.
static TRIANGLE: [(u32, &[u32]); 3] = [(3, &[3, 5]), (4, &[3, 4]), (5, &[4, 5])];

// A rotation system of the complete graph on four vertices.
static FOUR_VERTICES: [(u32, &[u32]); 4] = [
    (0, &[0, 1, 2]),
    (1, &[0, 4, 3]),
    (2, &[1, 3, 5]),
    (3, &[2, 5, 4]),
];

#[test]
fn lines_of_plane_blocks(rt: HostRuntime) -> Result<(), Fail> {
    let alloc = rt.alloc();
    // The complete graph on four vertices.
    let ends = [(0, 1), (0, 2), (0, 3), (1, 2), (1, 3), (2, 3)];
    let g = Graph::build(alloc, 4, &ends)?;
    let all = g.part(alloc, &[0, 1, 2, 3, 4, 5])?;
    let lines = plane_lines(alloc, 0, &all, &FOUR_VERTICES)?;
    assert_eq!(rt;
        lines.as_slice(),
        b"rotation 0 | 0: 0 1 2; 1: 0 4 3; 2: 1 3 5; 3: 2 5 4\n\
          faces 0 4\nface 0-0 1-4 3-2\nface 0-1 2-3 1-0\nface 0-2 3-5 2-1\nface 1-3 2-5 3-4\n"
            .as_slice()
    );
    Ok(())
}

#[test]
fn lines_of_a_plane_part(rt: HostRuntime) -> Result<(), Fail> {
    let alloc = rt.alloc();
    // A triangle after three other edges and vertices.
    let ends = [(0, 1), (1, 2), (2, 3), (3, 4), (4, 5), (3, 5)];
    let g = Graph::build(alloc, 6, &ends)?;
    let triangle = g.part(alloc, &[3, 4, 5])?;
    let lines = plane_lines(alloc, 3, &triangle, &TRIANGLE)?;
    assert_eq!(rt;
        lines.as_slice(),
        b"rotation 3 | 3: 3 5; 4: 3 4; 5: 4 5\n\
          faces 3 2\nface 3-3 4-4 5-5\nface 3-5 5-4 4-3\n"
            .as_slice()
    );
    Ok(())
}

// The lines of a subdivision of K3,3 in a block; nothing where it is not one.
fn nonplanar_text(
    alloc: Global,
    b: u32,
    part: &Part,
    branch: &[u32],
    paths: &[&[u32]],
) -> Result<Vec<u8>, AllocError> {
    let mut lists = Vec::new(alloc);
    for path in paths {
        lists.push(Numbers::of(Vec::from_slice(alloc, path)?))?;
    }
    let s = Subdivision {
        kind: Pattern::K33,
        branch: Numbers::of(Vec::from_slice(alloc, branch)?),
        paths: NumberLists::of(lists),
    };
    if !is_subdivision(alloc, part.graph(), &s)? {
        return Ok(Vec::new(alloc));
    }
    nonplanar_lines(alloc, b, part, &s)
}

// An edge, and K3,3 with a subdivided edge after it.
static SUBDIVIDED: [(u32, u32); 11] = [
    (0, 1),
    (1, 4),
    (1, 5),
    (1, 6),
    (2, 4),
    (2, 5),
    (2, 6),
    (3, 4),
    (3, 5),
    (3, 7),
    (7, 6),
];

// The paths of a subdivision of K3,3 in it.
static PATHS: [&[u32]; 9] = [&[0], &[1], &[2], &[3], &[4], &[5], &[6], &[7], &[8, 9]];

#[test]
fn lines_of_a_nonplanar_block(rt: HostRuntime) -> Result<(), Fail> {
    let alloc = rt.alloc();
    let g = Graph::build(alloc, 8, &SUBDIVIDED)?;
    let part = g.part(alloc, &[1, 2, 3, 4, 5, 6, 7, 8, 9, 10])?;
    let lines = nonplanar_text(alloc, 1, &part, &[0, 1, 2, 3, 4, 5], &PATHS)?;
    assert_eq!(rt;
        lines.as_slice(),
        b"nonplanar 1 K33 1 2 3 4 5 6\n\
          path 1 4: 1\npath 1 5: 2\npath 1 6: 3\npath 2 4: 4\npath 2 5: 5\npath 2 6: 6\n\
          path 3 4: 7\npath 3 5: 8\npath 3 6: 9 10\n"
            .as_slice()
    );
    assert_eq!(rt; planar_line(alloc, 2)?.as_slice(), b"planar 2\n".as_slice());
    Ok(())
}

// Whether all numbers are of edges of the graph.
fn are_edges(g: &Graph, numbers: &[u32]) -> bool
    ensures { result ≡ true → All (λ e. e < edge_count g.now) numbers.now }
{
    for number in numbers {
        if *number >= g.edge_count() {
            return false;
        }
    }
    true
}

// The lines of a permutation and a flip; nothing where the keys are no edges.
fn moves_text(alloc: Global, part: &Part, keys: &[u32]) -> Result<Vec<u8>, AllocError> {
    if !are_edges(part.graph(), keys) {
        return Ok(Vec::new(alloc));
    }
    let moves = vec![in alloc; Move::Permute(0, Keys::of(alloc, keys)?), Move::Flip(12)]?;
    moves_lines(alloc, part, &moves)
}

#[test]
fn lines_of_moves(rt: HostRuntime) -> Result<(), Fail> {
    let alloc = rt.alloc();
    // An edge, and three parallel edges after it.
    let g = Graph::build(alloc, 3, &[(0, 1), (1, 2), (1, 2), (1, 2)])?;
    let part = g.part(alloc, &[1, 2, 3])?;
    let lines = moves_text(alloc, &part, &[0, 2, 1])?;
    assert_eq!(rt;
        lines.as_slice(),
        b"moves 2\npermute 0 1 3 2\nflip 12\n".as_slice()
    );
    assert_eq!(rt;
        moves_lines(alloc, &part, &[])?.as_slice(),
        b"moves 0\n".as_slice()
    );
    assert_eq!(rt;
        longest_lines(alloc, 5, &part, &[])?.as_slice(),
        b"longest 5\nmoves 0\n".as_slice()
    );
    Ok(())
}

// The line of a move of a block; nothing where the keys are no edges.
fn block_move_line(
    alloc: Global,
    b: u32,
    part: &Part,
    keys: &[u32],
) -> Result<Vec<u8>, AllocError> {
    let mut out = Vec::new(alloc);
    if are_edges(part.graph(), keys) {
        let step = Move::Permute(0, Keys::of(alloc, keys)?);
        push_block_move_line(&mut out, b, part, &step)?;
    }
    Ok(out)
}

#[test]
fn lines_of_whole_moves(rt: HostRuntime) -> Result<(), Fail> {
    let alloc = rt.alloc();
    // An edge, and three parallel edges after it.
    let g = Graph::build(alloc, 3, &[(0, 1), (1, 2), (1, 2), (1, 2)])?;
    let part = g.part(alloc, &[1, 2, 3])?;
    let mut out = Vec::new(alloc);
    push_move_count_line(&mut out, 3)?;
    push_block_move_line(&mut out, 10, &part, &Move::Flip(2))?;
    out.extend_from_slice(&block_move_line(alloc, 1, &part, &[0, 2, 1])?)?;
    push_regroup_line(&mut out, 1, &[0, 1, 3, 2])?;
    assert_eq!(rt;
        out.as_slice(),
        b"moves 3\nflip 10 2\npermute 1 0 1 3 2\nregroup 1 0 1 3 2\n".as_slice()
    );
    Ok(())
}

// The line of a component with these lists.
fn whole_line(alloc: Global, c: u32, rows: &[(u32, &[u32])]) -> Result<Vec<u8>, AllocError> {
    let mut out = Vec::new(alloc);
    push_whole_line(&mut out, c, &lists_of(alloc, rows)?)?;
    Ok(out)
}

// A rotation system of two triangles with a common vertex.
static TWO_TRIANGLES: [(u32, &[u32]); 5] = [
    (0, &[0, 2, 3, 5]),
    (1, &[0, 1]),
    (2, &[1, 2]),
    (3, &[3, 4]),
    (4, &[4, 5]),
];

#[test]
fn lines_of_components(rt: HostRuntime) -> Result<(), Fail> {
    let alloc = rt.alloc();
    assert_eq!(rt;
        whole_line(alloc, 0, &TWO_TRIANGLES)?.as_slice(),
        b"whole 0 | 0: 0 2 3 5; 1: 0 1; 2: 1 2; 3: 3 4; 4: 4 5\n".as_slice()
    );
    assert_eq!(rt;
        whole_line(alloc, 1, &[(6, &[])])?.as_slice(),
        b"whole 1 | 6:\n".as_slice()
    );
    assert_eq!(rt;
        whole_line(alloc, 2, &[])?.as_slice(),
        b"whole 2 |\n".as_slice()
    );
    assert_eq!(rt;
        list_whole_line(alloc, 0, 10000)?.as_slice(),
        b"listwhole 0 10000\n".as_slice()
    );
    Ok(())
}

// The lines of a drawing; nothing where there is not one point for each vertex.
fn points_text(alloc: Global, part: &Part, points: &[(u32, u32)]) -> Result<Vec<u8>, AllocError> {
    if points.len() != part.graph().vertex_count() as usize {
        return Ok(Vec::new(alloc));
    }
    draw_lines(alloc, 7, part, points)
}

#[test]
fn lines_of_points(rt: HostRuntime) -> Result<(), Fail> {
    let alloc = rt.alloc();
    // An edge, and a triangle after it.
    let g = Graph::build(alloc, 4, &[(0, 1), (1, 2), (2, 3), (3, 1)])?;
    let part = g.part(alloc, &[1, 2, 3])?;
    let lines = points_text(alloc, &part, &[(0, 0), (2, 0), (1, 4294967295)])?;
    assert_eq!(rt;
        lines.as_slice(),
        b"draw 7 3\npoint 1 0 0\npoint 2 2 0\npoint 3 1 4294967295\n".as_slice()
    );
    Ok(())
}
