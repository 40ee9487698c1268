// Small graphs whose blocks are worked out by hand, and large ones.

use blocks::*;
use multigraph::Graph;
use std::test::Fail;

// A graph by the ends of its edges, and what is to be found: the blocks with a bar after each, the cut vertices, and how many
// components there are.
struct Row {
    vertices: u32,
    ends: &'static [(u32, u32)],
    blocks: &'static [u32],
    cut: &'static [u32],
    components: u32,
}

const BAR: u32 = 99;

static ROWS: [Row; 8] = [
    // no vertex, and vertices without edges
    Row {
        vertices: 0,
        ends: &[],
        blocks: &[],
        cut: &[],
        components: 0,
    },
    Row {
        vertices: 2,
        ends: &[],
        blocks: &[],
        cut: &[],
        components: 2,
    },
    // one edge, and two parallel edges
    Row {
        vertices: 2,
        ends: &[(0, 1)],
        blocks: &[0, BAR],
        cut: &[],
        components: 1,
    },
    Row {
        vertices: 2,
        ends: &[(1, 0), (0, 1)],
        blocks: &[0, 1, BAR],
        cut: &[],
        components: 1,
    },
    // two triangles, a tail and a lone vertex
    Row {
        vertices: 7,
        ends: &[(0, 1), (1, 2), (0, 2), (0, 3), (3, 4), (0, 4), (4, 5)],
        blocks: &[0, 1, 2, BAR, 3, 4, 5, BAR, 6, BAR],
        cut: &[0, 4],
        components: 2,
    },
    // a path of three edges whose middle edge is doubled
    Row {
        vertices: 4,
        ends: &[(0, 1), (1, 2), (3, 2), (2, 1)],
        blocks: &[0, BAR, 1, 3, BAR, 2, BAR],
        cut: &[1, 2],
        components: 1,
    },
    // a cactus of three triangles around one vertex, its edges mixed
    Row {
        vertices: 7,
        ends: &[
            (0, 1),
            (0, 3),
            (0, 5),
            (1, 2),
            (3, 4),
            (5, 6),
            (2, 0),
            (4, 0),
            (6, 0),
        ],
        blocks: &[0, 3, 6, BAR, 1, 4, 7, BAR, 2, 5, 8, BAR],
        cut: &[0],
        components: 1,
    },
    // K4 with a chord of its own and two components beside it
    Row {
        vertices: 7,
        ends: &[
            (5, 6),
            (0, 1),
            (0, 2),
            (0, 3),
            (1, 2),
            (1, 3),
            (2, 3),
            (3, 2),
        ],
        blocks: &[0, BAR, 1, 2, 3, 4, 5, 6, 7, BAR],
        cut: &[],
        components: 3,
    },
];

// The blocks of the multigraph of these ends, one after the other with a bar after each, and then its cut vertices and how
// many components it has.
fn described(
    rt: &HostRuntime,
    vertices: u32,
    ends: &[(u32, u32)],
) -> Result<(Vec<u32>, Vec<u32>, u32), Fail> {
    let Ok(graph) = Graph::build(rt.alloc(), vertices, ends) else {
        return Err(Fail::from("no graph"));
    };
    let found = split(rt.alloc(), &graph)?;
    let mut blocks = Vec::new(rt.alloc());
    for b in 0..found.block_count() {
        blocks.extend_from_slice(found.edges(b))?;
        blocks.push(BAR)?;
    }
    let cut = Vec::from_slice(rt.alloc(), found.cut_vertices())?;
    Ok((blocks, cut, found.component_count()))
}

#[test]
fn worked_rows(rt: HostRuntime) -> Result<(), Fail> {
    for row in &ROWS {
        let (blocks, cut, components) = described(&rt, row.vertices, row.ends)?;
        assert_eq!(rt; blocks.as_slice(), row.blocks);
        assert_eq!(rt; cut.as_slice(), row.cut);
        assert_eq!(rt; components, row.components);
    }
    Ok(())
}

// A long path and a large star: the search keeps its own stack.
#[test]
fn large_graphs(rt: HostRuntime) -> Result<(), Fail> {
    let mut path = Vec::new(rt.alloc());
    let mut star = Vec::new(rt.alloc());
    for v in 1..20_000u32 {
        path.push((v - 1, v))?;
        star.push((0, v))?;
    }
    let (blocks, cut, components) = described(&rt, 20_000, &path)?;
    assert_eq!(rt; blocks.len(), 2 * 19_999);
    assert_eq!(rt; cut.len(), 19_998);
    assert_eq!(rt; components, 1);
    let (blocks, cut, components) = described(&rt, 20_000, &star)?;
    assert_eq!(rt; blocks.len(), 2 * 19_999);
    assert_eq!(rt; cut.as_slice(), [0].as_slice());
    assert_eq!(rt; components, 1);
    Ok(())
}

// Graphs by their numbers of vertices and the ends of their edges, and whether they are one block.
static GRAPHS: [(u32, &[(u32, u32)], bool); 5] = [
    (2, &[(0, 1)], true),
    (3, &[(0, 1)], false),
    (3, &[(0, 1), (1, 2)], false),
    (3, &[(0, 1), (1, 2), (2, 0)], true),
    (1, &[], false),
];

#[test]
fn tells_blocks(rt: HostRuntime) -> Result<(), Fail> {
    for (vertices, ends, answer) in &GRAPHS {
        let graph = Graph::build(rt.alloc(), *vertices, ends)?;
        assert_eq!(rt; is_one_block(rt.alloc(), &graph)?, *answer);
    }
    Ok(())
}
