// A rotation system of the complete graph on four vertices read around each vertex, the lists that make none, runs that are moved
// and turned, and lists for a part.

ghost use Rattle.std.specs.Prelude.{◌≡◌, ◌<◌, length, IfOk};
ghost use Rattle.rotations.specs.Rotation.{order_at};

use multigraph::{Graph, Part};
use rotations::*;
use std::alloc::{AllocError, Global};
use std::test::Fail;

const K4: [(u32, u32); 6] = [(0, 1), (0, 2), (0, 3), (1, 2), (1, 3), (2, 3)];

pub(crate) type Row<'a> = (u32, &'a [u32]);

// The lists of these rows, without those whose vertex is not above the one before.
pub(crate) fn lists_of(alloc: Global, rows: &[Row<'_>]) -> Result<Lists, AllocError> {
    let mut lists = Lists::new(alloc);
    for row in rows {
        let (v, edges) = *row;
        if lists.is_above(v) {
            lists.push(v, edges)?;
        }
    }
    Ok(lists)
}

// The edges around v in order.
fn order_of(alloc: Global, r: &Rotation, v: u32) -> Result<Vec<u32>, AllocError>
    requires { v < length r.now }
    ensures { IfOk result (λ order. order.items ≡ order_at r.now v) }
{
    r.list(v).collect(alloc)
}

// The edge at a place of the order around v, between the one before it and the one after it.
fn between(r: &Rotation, v: u32, order: &[u32], i: usize) -> (u32, u32, u32)
    requires vertex { v < length r.now }
    requires order { order.now ≡ order_at r.now v }
    requires place { i < length order.now }
{
    let e = order[i];
    (r.pred(v, e), e, r.succ(v, e))
}

// For each edge around v, in order, the one before it, itself and the one after it.
fn round(alloc: Global, r: &Rotation, v: u32) -> Result<Vec<(u32, u32, u32)>, AllocError>
    requires { v < length r.now }
{
    let order = order_of(alloc, r, v)?;
    let mut rows = Vec::new(alloc);
    for i in 0..order.len() {
        rows.push(between(r, v, order.as_slice(), i))?;
    }
    Ok(rows)
}

// What making a rotation system says, as a text.
fn answer(alloc: Global, g: &Graph, rows: &[Row<'_>]) -> Result<String, AllocError> {
    match Rotation::from_lists(alloc, g, &lists_of(alloc, rows)?) {
        Ok(r) => {
            let vertices = r.vertex_count();
            format!(in alloc; "{vertices} vertices")
        }
        Err(fault) => format!(in alloc; "{fault}"),
    }
}

#[test]
fn keeps_the_lists(rt: HostRuntime) -> Result<(), Fail> {
    let alloc = rt.alloc();
    let lists = lists_of(alloc, &[(2, &[5, 1]), (2, &[]), (7, &[])])?;
    assert!(rt; !lists.is_empty());
    assert!(rt; lists.len() == 2);
    assert_eq!(rt; lists.vertex(1), 7);
    assert_eq!(rt; lists.edges(0), [5, 1].as_slice());
    Ok(())
}

// For each vertex the edges around it.
static ROUNDS: [(u32, &[(u32, u32, u32)]); 5] = [
    (0, &[(2, 0, 1), (0, 1, 2), (1, 2, 0)]),
    (1, &[(3, 0, 4), (0, 4, 3), (4, 3, 0)]),
    (2, &[(5, 1, 3), (1, 3, 5), (3, 5, 1)]),
    (3, &[(4, 2, 5), (2, 5, 4), (5, 4, 2)]),
    (4, &[]),
];

#[test]
fn reads_round_each_vertex(rt: HostRuntime) -> Result<(), Fail> {
    let alloc = rt.alloc();
    let g = Graph::build(alloc, 5, &K4)?;
    let lists = lists_of(
        alloc,
        &[
            (0, &[0, 1, 2]),
            (1, &[4, 3, 0]),
            (2, &[5, 1, 3]),
            (3, &[2, 5, 4]),
        ],
    )?;
    let r = Rotation::from_lists(alloc, &g, &lists)?;
    assert!(rt; r.vertex_count() == 5);
    for (v, expected) in ROUNDS {
        if v < r.vertex_count() {
            let found = round(alloc, &r, v)?;
            assert_eq!(rt; found.len(), expected.len());
            assert_eq!(rt; found.as_slice(), expected);
        }
    }
    assert!(rt; r.same(&r.copy(alloc)?));
    let other = lists_of(
        alloc,
        &[
            (0, &[0, 1, 2]),
            (1, &[0, 4, 3]),
            (2, &[1, 3, 5]),
            (3, &[2, 4, 5]),
        ],
    )?;
    assert!(rt; !r.same(&Rotation::from_lists(alloc, &g, &other)?));
    Ok(())
}

// Lists that are no rotation system of the complete graph on four vertices, with what is said of them.
static BAD_LISTS: [(&[Row], &str); 5] = [
    (
        &[(0, &[0])],
        "the list of vertex 0 is not a permutation of its edges",
    ),
    (
        &[],
        "the list of vertex 0 is not a permutation of its edges",
    ),
    (
        &[(0, &[2, 1, 0]), (1, &[0, 4, 4]), (9, &[])],
        "the list of vertex 1 is not a permutation of its edges",
    ),
    (
        &[(0, &[2, 1, 0]), (1, &[0, 4, 5])],
        "the list of vertex 1 is not a permutation of its edges",
    ),
    (
        &[(0, &[2, 1, 6])],
        "the list of vertex 0 is not a permutation of its edges",
    ),
];

// Lists for an edge and a vertex without edges.
static LISTS_OF_AN_EDGE: [(&[Row], &str); 3] = [
    (
        &[(0, &[0]), (1, &[0]), (3, &[])],
        "the list of vertex 3 is not a permutation of its edges",
    ),
    (&[(0, &[0]), (1, &[0]), (2, &[])], "3 vertices"),
    (&[(0, &[0]), (1, &[0])], "3 vertices"),
];

// Whether making rotation systems of the graph gives the result in each row.
fn are_answered(alloc: Global, g: &Graph, rows: &[(&[Row], &str)]) -> Result<bool, AllocError> {
    for (lists, expected) in rows {
        if answer(alloc, g, lists)?.as_str() != *expected {
            return Ok(false);
        }
    }
    Ok(true)
}

#[test]
fn names_the_least_bad_number(rt: HostRuntime) -> Result<(), Fail> {
    let alloc = rt.alloc();
    let g = Graph::build(alloc, 4, &K4)?;
    let path = Graph::build(alloc, 3, &[(0, 1)])?;
    assert!(rt; are_answered(alloc, &g, &BAD_LISTS)?);
    assert!(rt; are_answered(alloc, &path, &LISTS_OF_AN_EDGE)?);
    Ok(())
}

// A change of the cyclic order of a vertex, by places in its list.
#[derive(Clone, Copy)]
enum Change {
    Move(usize, usize, usize),
    Turn(usize, usize),
    Mirror,
}

// Makes the change where the places are places, and the run that is moved ends before the edge that it is inserted after.
fn make(alloc: Global, r: &mut Rotation, v: u32, change: Change) -> Result<(), AllocError>
    requires { v < length r.old }
{
    let order = order_of(alloc, r, v)?;
    match change {
        Change::Move(i, j, k) => {
            if i <= j && j < k && k < order.len() {
                r.move_run(v, order[i], order[j], order[k]);
            }
        }
        Change::Turn(i, j) => {
            if i < order.len() && j < order.len() {
                r.turn_run(v, order[i], order[j]);
            }
        }
        Change::Mirror => r.mirror(),
    }
    Ok(())
}

// Nodes after others, once the changes are made.
static STEPS: [(u32, u32); 7] = [(0, 8), (8, 4), (4, 2), (2, 6), (6, 0), (1, 10), (10, 1)];

// Changes at a vertex, each with the edges around it then.
static CHANGES: [(u32, Change, &[u32]); 13] = [
    (0, Change::Move(1, 2, 4), &[0, 3, 4, 1, 2]),
    (0, Change::Move(0, 0, 2), &[0, 1, 2, 3, 4]),
    (0, Change::Move(0, 1, 4), &[0, 1, 2, 3, 4]),
    (0, Change::Move(0, 3, 4), &[0, 1, 2, 3, 4]),
    (0, Change::Turn(1, 3), &[0, 3, 2, 1, 4]),
    (0, Change::Turn(1, 0), &[0, 4, 1, 2, 3]),
    (0, Change::Turn(2, 2), &[0, 4, 1, 2, 3]),
    (0, Change::Turn(4, 1), &[0, 3, 1, 2, 4]),
    (1, Change::Move(0, 0, 1), &[0, 5]),
    (1, Change::Turn(0, 1), &[0, 5]),
    (1, Change::Turn(0, 0), &[0, 5]),
    (3, Change::Turn(0, 0), &[2]),
    (0, Change::Mirror, &[0, 4, 2, 1, 3]),
];

#[test]
fn moves_and_turns_runs(rt: HostRuntime) -> Result<(), Fail> {
    let alloc = rt.alloc();
    // A star of five edges, and a sixth between two of its leaves.
    let ends = [(0, 1), (0, 2), (0, 3), (0, 4), (0, 5), (1, 2)];
    let g = Graph::build(alloc, 6, &ends)?;
    let lists = lists_of(
        alloc,
        &[
            (0, &[0, 1, 2, 3, 4]),
            (1, &[0, 5]),
            (2, &[5, 1]),
            (3, &[2]),
            (4, &[3]),
            (5, &[4]),
        ],
    )?;
    let mut r = Rotation::from_lists(alloc, &g, &lists)?;
    for (v, change, expected) in &CHANGES {
        let v = *v;
        if v < r.vertex_count() {
            make(alloc, &mut r, v, *change)?;
        }
        if v < r.vertex_count() {
            let order: Vec<u32> = r.list(v).collect(alloc)?;
            assert_eq!(rt; order.as_slice(), *expected);
        }
        let lists = r.lists(alloc)?;
        if (v as usize) < lists.len() {
            assert_eq!(rt; lists.at(v as usize), *expected);
        }
    }
    // The node of an edge at its first end has twice the number of the edge, the one at its second end follows.
    let nodes = r.rings();
    for (node, next) in &STEPS {
        if *node < nodes.len() {
            assert_eq!(rt; nodes.next(*node), *next);
        }
    }
    Ok(())
}

// What making a rotation system of a part says, as a text: the list of its first vertex, or why it does not exist.
fn part_answer(alloc: Global, p: &Part, rows: &[Row<'_>]) -> Result<String, AllocError> {
    match Rotation::from_part(alloc, p, &lists_of(alloc, rows)?) {
        Ok(r) => {
            let mut text = String::new(alloc);
            if r.vertex_count() > 0 {
                for e in r.list(0) {
                    text.push_str(format!(in alloc; " {e}")?.as_str())?;
                }
            }
            Ok(text)
        }
        Err(fault) => format!(in alloc; "{fault}"),
    }
}

// Lists for the part of the complete graph on four vertices without its first edge: a rotation system and others, with the list of
// its first vertex or what is said.
static PART_LISTS: [(&[Row], &str); 5] = [
    (
        &[(0, &[2, 1]), (1, &[4, 3]), (2, &[5, 1, 3]), (3, &[2, 5, 4])],
        " 0 1",
    ),
    (
        &[(0, &[1, 0]), (1, &[3, 2]), (2, &[4, 0, 2]), (3, &[1, 4, 3])],
        "the list of vertex 0 is not a permutation of its edges",
    ),
    (
        &[(0, &[2, 1]), (1, &[4, 3, 0])],
        "the list of vertex 1 is not a permutation of its edges",
    ),
    (
        &[(0, &[2, 1]), (1, &[4, 3]), (2, &[5, 1, 3]), (9, &[])],
        "the list of vertex 3 is not a permutation of its edges",
    ),
    (
        &[
            (0, &[2, 1]),
            (1, &[4, 3]),
            (2, &[5, 1, 3]),
            (3, &[2, 5, 4]),
            (7, &[]),
        ],
        "the list of vertex 7 is not a permutation of its edges",
    ),
];

#[test]
fn takes_lists_for_a_part(rt: HostRuntime) -> Result<(), Fail> {
    let alloc = rt.alloc();
    let g = Graph::build(alloc, 4, &K4)?;
    // All edges but the one between vertices 0 and 1: 0 is on two of them.
    let part = g.part(alloc, &[1, 2, 3, 4, 5])?;
    for (rows, expected) in &PART_LISTS {
        let text = part_answer(alloc, &part, rows)?;
        assert_eq!(rt; text.as_str(), *expected);
    }
    // The triangle of the last three edges has no vertex 0.
    let triangle = g.part(alloc, &[3, 4, 5])?;
    let text = part_answer(alloc, &triangle, &[(0, &[])])?;
    assert_eq!(rt;
        text.as_str(),
        "the list of vertex 0 is not a permutation of its edges"
    );
    let text = part_answer(
        alloc,
        &triangle,
        &[(1, &[4, 3]), (2, &[5, 3]), (3, &[5, 4])],
    )?;
    assert_eq!(rt; text.as_str(), " 0 1");
    Ok(())
}
