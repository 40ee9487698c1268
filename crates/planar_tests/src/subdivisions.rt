// Certificates of small graphs, right ones and near misses, and their written form.

use kuratowski::{Pattern, Subdivision, check, is_subdivision, written_form};
use multigraph::{Graph, NumberLists, Numbers};
use std::alloc::{AllocError, Global};
use std::test::Fail;

// A certificate, and whether it is one in its written form.
struct Row {
    kind: Pattern,
    branch: &'static [u32],
    paths: &'static [&'static [u32]],
    held: bool,
}

static K5_ROWS: [Row; 8] = [
    // each edge a path
    Row {
        kind: Pattern::K5,
        branch: &[0, 1, 2, 3, 4],
        paths: &[&[0], &[1], &[2], &[3], &[4], &[5], &[6], &[7], &[8], &[9]],
        held: true,
    },
    // two paths exchanged
    Row {
        kind: Pattern::K5,
        branch: &[0, 1, 2, 3, 4],
        paths: &[&[1], &[0], &[2], &[3], &[4], &[5], &[6], &[7], &[8], &[9]],
        held: false,
    },
    // another order of the branch vertices, with the paths that it asks for
    Row {
        kind: Pattern::K5,
        branch: &[1, 0, 2, 3, 4],
        paths: &[&[0], &[4], &[5], &[6], &[1], &[2], &[3], &[7], &[8], &[9]],
        held: false,
    },
    // no such edge
    Row {
        kind: Pattern::K5,
        branch: &[0, 1, 2, 3, 4],
        paths: &[
            &[0],
            &[1],
            &[2],
            &[3],
            &[4],
            &[5],
            &[6],
            &[7],
            &[8],
            &[4294967295],
        ],
        held: false,
    },
    // a path of no edges
    Row {
        kind: Pattern::K5,
        branch: &[0, 1, 2, 3, 4],
        paths: &[&[0], &[1], &[2], &[3], &[4], &[5], &[6], &[7], &[8], &[]],
        held: false,
    },
    // no such vertex
    Row {
        kind: Pattern::K5,
        branch: &[0, 1, 2, 3, 4294967295],
        paths: &[&[0], &[1], &[2], &[3], &[4], &[5], &[6], &[7], &[8], &[9]],
        held: false,
    },
    // four branch vertices
    Row {
        kind: Pattern::K5,
        branch: &[0, 1, 2, 3],
        paths: &[&[0], &[1], &[2], &[3], &[4], &[5], &[6], &[7], &[8], &[9]],
        held: false,
    },
    // a path too many
    Row {
        kind: Pattern::K5,
        branch: &[0, 1, 2, 3, 4],
        paths: &[
            &[0],
            &[1],
            &[2],
            &[3],
            &[4],
            &[5],
            &[6],
            &[7],
            &[8],
            &[9],
            &[],
        ],
        held: false,
    },
];

// Three vertices joined with three others, where vertex 6 is between 2 and 5; in addition edges from 1 to 6 and from 4 to 6,
// and another one from 2 to 4.
const K33_ENDS: [(u32, u32); 13] = [
    (0, 3),
    (0, 4),
    (0, 5),
    (1, 3),
    (1, 4),
    (1, 5),
    (2, 3),
    (2, 4),
    (2, 6),
    (6, 5),
    (1, 6),
    (4, 6),
    (2, 4),
];

static K33_ROWS: [Row; 8] = [
    Row {
        kind: Pattern::K33,
        branch: &[0, 1, 2, 3, 4, 5],
        paths: &[&[0], &[1], &[2], &[3], &[4], &[5], &[6], &[7], &[8, 9]],
        held: true,
    },
    // a parallel edge
    Row {
        kind: Pattern::K33,
        branch: &[0, 1, 2, 3, 4, 5],
        paths: &[&[0], &[1], &[2], &[3], &[4], &[5], &[6], &[12], &[8, 9]],
        held: true,
    },
    // the last path ends at no branch vertex
    Row {
        kind: Pattern::K33,
        branch: &[0, 1, 2, 3, 4, 5],
        paths: &[&[0], &[1], &[2], &[3], &[4], &[5], &[6], &[7], &[8]],
        held: false,
    },
    // the sides exchanged
    Row {
        kind: Pattern::K33,
        branch: &[3, 4, 5, 0, 1, 2],
        paths: &[&[0], &[3], &[6], &[1], &[4], &[7], &[2], &[5], &[9, 8]],
        held: false,
    },
    // vertex 6 inside two paths
    Row {
        kind: Pattern::K33,
        branch: &[0, 1, 2, 3, 4, 5],
        paths: &[&[0], &[1], &[2], &[3], &[4], &[10, 9], &[6], &[7], &[8, 9]],
        held: false,
    },
    // branch vertex 4 inside a path
    Row {
        kind: Pattern::K33,
        branch: &[0, 1, 2, 3, 4, 5],
        paths: &[&[0], &[1], &[2], &[3], &[4], &[5], &[6], &[7], &[7, 11, 9]],
        held: false,
    },
    // the last path ends at branch vertex 4
    Row {
        kind: Pattern::K33,
        branch: &[0, 1, 2, 3, 4, 5],
        paths: &[&[0], &[1], &[2], &[3], &[4], &[5], &[6], &[7], &[12]],
        held: false,
    },
    // a path too few
    Row {
        kind: Pattern::K33,
        branch: &[0, 1, 2, 3, 4, 5],
        paths: &[&[0], &[1], &[2], &[3], &[4], &[5], &[6], &[7]],
        held: false,
    },
];

// The first certificate of K5 with its branch vertices in another order.
static MIXED_FIVE: Row = Row {
    kind: Pattern::K5,
    branch: &[3, 1, 0, 4, 2],
    paths: &[&[5], &[2], &[9], &[7], &[0], &[6], &[4], &[3], &[1], &[8]],
    held: false,
};

// The first certificate of K3,3 with its sides exchanged and their vertices in another order.
static MIXED_SIDES: Row = Row {
    kind: Pattern::K33,
    branch: &[5, 3, 4, 2, 0, 1],
    paths: &[&[9, 8], &[2], &[5], &[6], &[0], &[3], &[7], &[1], &[4]],
    held: false,
};

// The certificate of a row.
fn certificate(alloc: Global, row: &Row) -> Result<Subdivision, AllocError> {
    let mut paths = Vec::new(alloc);
    for path in row.paths {
        paths.push(Numbers::of(Vec::from_slice(alloc, path)?))?;
    }
    Ok(Subdivision {
        kind: row.kind,
        branch: Numbers::of(Vec::from_slice(alloc, row.branch)?),
        paths: NumberLists::of(paths),
    })
}

// The complete graph on five vertices: its edges are those of the pattern.
fn complete(alloc: Global) -> Result<Graph, Fail> {
    let mut ends = Vec::new(alloc);
    for pair in Pattern::K5.edges() {
        let (first, second) = *pair;
        ends.push((first as u32, second as u32))?;
    }
    Ok(Graph::build(alloc, Pattern::K5.branch_count() as u32, &ends)?)
}

// Whether the check says of each certificate what its row does.
fn are_told(alloc: Global, g: &Graph, rows: &[Row]) -> Result<bool, AllocError> {
    for row in rows {
        if check(alloc, g, &certificate(alloc, row)?)? != row.held {
            return Ok(false);
        }
    }
    Ok(true)
}

#[test]
fn tells_subdivisions(rt: HostRuntime) -> Result<(), Fail> {
    let alloc = rt.alloc();
    let complete = complete(alloc)?;
    assert!(rt; are_told(alloc, &complete, &K5_ROWS)?);
    let bipartite = Graph::build(alloc, 7, &K33_ENDS)?;
    assert!(rt; are_told(alloc, &bipartite, &K33_ROWS)?);
    Ok(())
}

// Whether the certificate has these branch vertices and paths.
fn is_of(s: &Subdivision, branch: &[u32], paths: &[&[u32]]) -> bool {
    if s.branch.as_slice() != branch || s.paths.as_slice().len() != paths.len() {
        return false;
    }
    for (path, expected) in s.paths.as_slice().iter().zip(paths) {
        if path.as_slice() != *expected {
            return false;
        }
    }
    true
}

// Whether the certificate is a subdivision whose written form is that of the other.
fn is_written_as(alloc: Global, g: &Graph, row: &Row, form: &Row) -> Result<bool, AllocError> {
    let s = certificate(alloc, row)?;
    if !is_subdivision(alloc, g, &s)? {
        return Ok(false);
    }
    let w = written_form(alloc, g, s)?;
    Ok(is_of(&w, form.branch, form.paths))
}

#[test]
fn writes_in_order(rt: HostRuntime) -> Result<(), Fail> {
    let alloc = rt.alloc();
    let complete = complete(alloc)?;
    assert!(rt; is_written_as(alloc, &complete, &MIXED_FIVE, &K5_ROWS[0])?);
    let bipartite = Graph::build(alloc, 7, &K33_ENDS)?;
    assert!(rt; is_written_as(alloc, &bipartite, &MIXED_SIDES, &K33_ROWS[0])?);
    assert!(rt; !is_written_as(alloc, &bipartite, &K33_ROWS[2], &K33_ROWS[0])?);
    Ok(())
}
