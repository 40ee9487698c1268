// Moves between the plane rotation systems of small components, worked out by hand.

ghost use Rattle.std.specs.Prelude.{◌<◌};

use crate::whole_graphs::{Placed, Walk};
use rotations::Lists;
use skel_embed::Move;
use std::alloc::{AllocError, Global};
use std::test::Fail;
use whole_convert::{WholeFault, WholeMove};

// Edges of a vertex in cyclic order.
type Order = &'static [u32];

// Two triangles and an edge in a chain, and a vertex without edges; the arrangements around its cut vertices, 0 and 4. Member 2i + j
// has arrangement i around the one and j around the other.
static CHAIN: [(u32, u32); 7] = [(0, 1), (1, 2), (2, 0), (0, 3), (3, 4), (4, 0), (4, 5)];

static AROUND_0: [Order; 4] = [&[0, 2, 3, 5], &[0, 2, 5, 3], &[0, 3, 5, 2], &[0, 5, 3, 2]];

static AROUND_4: [Order; 2] = [&[4, 5, 6], &[4, 6, 5]];

// The complete graph on four vertices with a triangle on one of them, which is the cut vertex; its arrangements in the order of the
// list. The complete graph is turned over in the last six.
static FOUR: [(u32, u32); 9] = [
    (0, 1),
    (0, 2),
    (0, 3),
    (1, 2),
    (1, 3),
    (2, 3),
    (0, 4),
    (4, 5),
    (5, 0),
];

static AROUND_FOUR: [Order; 12] = [
    &[0, 1, 2, 6, 8],
    &[0, 1, 2, 8, 6],
    &[0, 1, 6, 8, 2],
    &[0, 1, 8, 6, 2],
    &[0, 6, 8, 1, 2],
    &[0, 8, 6, 1, 2],
    &[0, 2, 1, 6, 8],
    &[0, 2, 1, 8, 6],
    &[0, 2, 6, 8, 1],
    &[0, 2, 8, 6, 1],
    &[0, 6, 8, 2, 1],
    &[0, 8, 6, 2, 1],
];

// Two complete graphs on four vertices with a common vertex.
static TWO: [(u32, u32); 12] = [
    (0, 1),
    (0, 2),
    (0, 3),
    (1, 2),
    (1, 3),
    (2, 3),
    (0, 4),
    (0, 5),
    (0, 6),
    (4, 5),
    (4, 6),
    (5, 6),
];

// What is answered to lists: the number of steps, or the refusal by the number that is printed for it, and its numbers.
type Told = (usize, u32, u32, u32);

// Vertices with lists, and what is answered to these.
type Given = (&'static [(u32, Order)], Told);

static CHAIN_GIVEN: [Given; 3] = [
    (
        &[
            (0, &[0, 3, 2, 5]),
            (1, &[0, 1]),
            (2, &[1, 2]),
            (3, &[3, 4]),
            (4, &[4, 5]),
        ],
        (6, 4, 0, 0),
    ),
    (
        &[
            (0, &[0, 3, 2, 5]),
            (1, &[0, 1]),
            (2, &[1, 2]),
            (3, &[3, 4]),
            (4, &[4, 5, 6]),
            (5, &[6]),
            (6, &[]),
        ],
        (6, 6, 0, 0),
    ),
    (
        &[
            (0, &[0, 3, 2, 5]),
            (1, &[0, 1]),
            (2, &[1, 2]),
            (3, &[3, 4]),
            (4, &[4, 5, 6]),
            (5, &[6]),
        ],
        (7, 6, 7, 1),
    ),
];

static ALONE_GIVEN: [Given; 3] = [
    (&[], (0, 0, 0, 0)),
    (&[(6, &[])], (0, 0, 0, 0)),
    (&[(0, &[])], (6, 0, 0, 0)),
];

// Nodes of blocks that are locked, and what is answered then to the lists in which both complete graphs are turned over.
type Locked = (&'static [(u32, u32)], Told);

static TWO_LOCKED: [Locked; 3] = [
    (&[], (2, 0, 0, 0)),
    (&[(1, 0)], (12, 1, 0, 0)),
    (&[(1, 0), (0, 0)], (12, 0, 0, 0)),
];

// The graph of these edges with its blocks in the plane.
fn placed(alloc: Global, vertices: u32, ends: &[(u32, u32)]) -> Result<Placed, Fail> {
    match Placed::of(alloc, vertices, ends)? {
        Some(graph) => Ok(graph),
        None => Err(Fail::from("not plane")),
    }
}

// A component of it with first arrangements.
fn first_of(alloc: Global, graph: &Placed, c: u32) -> Result<Walk, Fail> {
    match Walk::of(alloc, graph, c)? {
        Some(walk) => Ok(walk),
        None => Err(Fail::from("no component")),
    }
}

// The first component of the graph of these edges with first arrangements.
fn begin(alloc: Global, vertices: u32, ends: &[(u32, u32)]) -> Result<Walk, Fail> {
    first_of(alloc, &placed(alloc, vertices, ends)?, 0)
}

// The present member and all that follow.
fn members_from(alloc: Global, walk: &Walk) -> Result<Vec<Lists>, Fail> {
    let mut members = Vec::new(alloc);
    members.push(walk.lists(alloc)?)?;
    for lists in walk.after(alloc, 100)? {
        members.push(lists)?;
    }
    Ok(members)
}

// Whether the step flips node k of block b.
fn flips(step: &WholeMove, b: u32, k: u32) -> bool {
    match step {
        WholeMove::Block(block, Move::Flip(node)) => *block == b && *node == k,
        _ => false,
    }
}

// Whether the step arranges these edges around vertex v.
fn arranges(step: &WholeMove, v: u32, order: Order) -> bool {
    match step {
        WholeMove::Regroup(vertex, edges) => *vertex == v && edges.as_slice() == order,
        _ => false,
    }
}

// Whether the steps give the cut vertices of the chain the arrangements of a member, where another one has others.
fn lead_in_chain(steps: &[WholeMove], from: usize, to: usize) -> bool
    requires from { from < 8 }
    requires to { to < 8 }
{
    let (first, second) = (AROUND_0[to / 2], AROUND_4[to % 2]);
    match steps {
        [] => from == to,
        [a] => {
            (from % 2 == to % 2 && arranges(a, 0, first))
                || (from / 2 == to / 2 && arranges(a, 4, second))
        }
        [a, b] => {
            from / 2 != to / 2
                && from % 2 != to % 2
                && arranges(a, 0, first)
                && arranges(b, 4, second)
        }
        _ => false,
    }
}

// Whether the steps lead from one member of the other graph to another: the complete graph is flipped where it is to be turned over, and
// then the first arrangement needs no step.
fn lead_in_four(steps: &[WholeMove], from: usize, to: usize) -> bool
    requires to { to < 12 }
{
    match steps {
        [] => from == to,
        [a] => {
            if from / 6 == to / 6 {
                from != to && arranges(a, 0, AROUND_FOUR[to])
            } else {
                to % 6 == 0 && flips(a, 0, 0)
            }
        }
        [a, b] => {
            from / 6 != to / 6 && to % 6 != 0 && flips(a, 0, 0) && arranges(b, 0, AROUND_FOUR[to])
        }
        _ => false,
    }
}

// What an answer says.
fn told(answer: Result<Vec<WholeMove>, WholeFault>) -> Told {
    match answer {
        Ok(steps) => (steps.len(), 0, 0, 0),
        Err(WholeFault::BadRotation(v)) => (6, v, 0, 0),
        Err(WholeFault::NotGenusZero(v, e, f)) => (7, v, e, f),
        Err(WholeFault::Locked(b, k)) => (12, b, k, 0),
        Err(WholeFault::Memory) => (8, 0, 0, 0),
    }
}

// The lists of these rows, without those whose vertex is not above the one before.
fn lists_of(alloc: Global, rows: &'static [(u32, Order)]) -> Result<Lists, AllocError> {
    let mut lists = Lists::new(alloc);
    for row in rows {
        let (v, edges) = *row;
        if lists.is_above(v) {
            lists.push(v, edges)?;
        }
    }
    Ok(lists)
}

// Whether all answers to lists are as the table wants.
fn are_told(alloc: Global, walk: &Walk, given: &'static [Given]) -> Result<bool, Fail> {
    for (rows, wanted) in given {
        let lists = lists_of(alloc, *rows)?;
        if told(walk.moves(alloc, &lists)) != *wanted {
            return Ok(false);
        }
    }
    Ok(true)
}

// Whether the steps from a member of the chain to each are as they should be.
fn leads_in_chain(alloc: Global, walk: &Walk, members: &[Lists], from: usize) -> Result<bool, Fail>
    requires { from < 8 }
{
    for to in 0..8usize {
        let Some(target) = members.get(to) else {
            return Ok(false);
        };
        let Ok(steps) = walk.moves(alloc, target) else {
            return Ok(false);
        };
        if !lead_in_chain(&steps, from, to) {
            return Ok(false);
        }
    }
    Ok(true)
}

#[test]
fn leads_from_each_arrangement_to_each(rt: HostRuntime) -> Result<(), Fail> {
    let mut walk = begin(rt.alloc(), 7, &CHAIN)?;
    let members = members_from(rt.alloc(), &walk)?;
    for from in 0..8usize {
        assert!(rt; leads_in_chain(rt.alloc(), &walk, &members, from)?);
        assert!(rt; walk.step() == (from < 7));
    }
    Ok(())
}

// Whether the steps from a member of the other graph to each are as they should be.
fn leads_in_four(alloc: Global, walk: &Walk, members: &[Lists], from: usize) -> Result<bool, Fail> {
    for to in 0..12usize {
        let Some(target) = members.get(to) else {
            return Ok(false);
        };
        let Ok(steps) = walk.moves(alloc, target) else {
            return Ok(false);
        };
        if !lead_in_four(&steps, from, to) {
            return Ok(false);
        }
    }
    Ok(true)
}

#[test]
fn turns_a_block_over(rt: HostRuntime) -> Result<(), Fail> {
    let mut walk = begin(rt.alloc(), 6, &FOUR)?;
    let members = members_from(rt.alloc(), &walk)?;
    for from in 0..12usize {
        assert!(rt; leads_in_four(rt.alloc(), &walk, &members, from)?);
        assert!(rt; walk.step() == (from < 11));
    }
    Ok(())
}

#[test]
fn refuses_wrong_lists(rt: HostRuntime) -> Result<(), Fail> {
    let walk = begin(rt.alloc(), 7, &CHAIN)?;
    assert!(rt; are_told(rt.alloc(), &walk, &CHAIN_GIVEN)?);
    Ok(())
}

// The second component of the chain has one vertex, whose one rotation system may be given with it or without.
#[test]
fn stays_at_one_vertex(rt: HostRuntime) -> Result<(), Fail> {
    let walk = first_of(rt.alloc(), &placed(rt.alloc(), 7, &CHAIN)?, 1)?;
    assert!(rt; are_told(rt.alloc(), &walk, &ALONE_GIVEN)?);
    Ok(())
}

// The lists in which both complete graphs are turned over.
fn turned(alloc: Global) -> Result<Lists, Fail> {
    let mut graph = placed(alloc, 7, &TWO)?;
    if graph.lead(0) && graph.lead(1) {
        Ok(first_of(alloc, &graph, 0)?.lists(alloc)?)
    } else {
        Err(Fail::from("no next member"))
    }
}

// The complete graphs with these nodes locked, and first arrangements.
fn locked(alloc: Global, locks: &'static [(u32, u32)]) -> Result<Walk, Fail> {
    let mut graph = placed(alloc, 7, &TWO)?;
    for (b, k) in locks {
        if !graph.lock(*b, *k) {
            return Err(Fail::from("no such node"));
        }
    }
    first_of(alloc, &graph, 0)
}

#[test]
fn names_the_least_locked_node(rt: HostRuntime) -> Result<(), Fail> {
    let target = turned(rt.alloc())?;
    for (locks, wanted) in &TWO_LOCKED {
        let walk = locked(rt.alloc(), *locks)?;
        assert!(rt; told(walk.moves(rt.alloc(), &target)) == *wanted);
    }
    Ok(())
}
