// Components of small graphs: their lists, arrangements that are taken and refused, worked out by hand.

use crate::whole_graphs::{Placed, Walk};
use rotations::Lists;
use std::alloc::Global;
use std::test::Fail;
use whole_embed::RegroupFault;

// Edges of a vertex in cyclic order.
type Order = &'static [u32];

// Members that follow one another and differ at some vertices alone: the edges around all others, and of each member the edges
// around these.
struct Stretch {
    rounds: &'static [Order],
    members: &'static [&'static [(u32, Order)]],
}

// Two triangles and an edge in a chain, and a vertex without edges.
static CHAIN_ENDS: [(u32, u32); 7] = [(0, 1), (1, 2), (2, 0), (0, 3), (3, 4), (4, 0), (4, 5)];

static CHAIN: Stretch = Stretch {
    rounds: &[&[], &[0, 1], &[1, 2], &[3, 4], &[], &[6]],
    members: &[
        &[(0, &[0, 2, 3, 5]), (4, &[4, 5, 6])],
        &[(0, &[0, 2, 3, 5]), (4, &[4, 6, 5])],
        &[(0, &[0, 2, 5, 3]), (4, &[4, 5, 6])],
        &[(0, &[0, 2, 5, 3]), (4, &[4, 6, 5])],
        &[(0, &[0, 3, 5, 2]), (4, &[4, 5, 6])],
        &[(0, &[0, 3, 5, 2]), (4, &[4, 6, 5])],
        &[(0, &[0, 5, 3, 2]), (4, &[4, 5, 6])],
        &[(0, &[0, 5, 3, 2]), (4, &[4, 6, 5])],
    ],
};

// The complete graph on four vertices with a triangle on one of them.
static FOUR_ENDS: [(u32, u32); 9] = [
    (0, 1),
    (0, 2),
    (0, 3),
    (1, 2),
    (1, 3),
    (2, 3),
    (0, 4),
    (4, 5),
    (5, 0),
];

static FOUR: [Stretch; 2] = [
    Stretch {
        rounds: &[&[], &[0, 4, 3], &[1, 3, 5], &[2, 5, 4], &[6, 7], &[7, 8]],
        members: &[
            &[(0, &[0, 1, 2, 6, 8])],
            &[(0, &[0, 1, 2, 8, 6])],
            &[(0, &[0, 1, 6, 8, 2])],
            &[(0, &[0, 1, 8, 6, 2])],
            &[(0, &[0, 6, 8, 1, 2])],
            &[(0, &[0, 8, 6, 1, 2])],
        ],
    },
    Stretch {
        rounds: &[&[], &[0, 3, 4], &[1, 5, 3], &[2, 4, 5], &[6, 7], &[7, 8]],
        members: &[
            &[(0, &[0, 2, 1, 6, 8])],
            &[(0, &[0, 2, 1, 8, 6])],
            &[(0, &[0, 2, 6, 8, 1])],
            &[(0, &[0, 2, 8, 6, 1])],
            &[(0, &[0, 6, 8, 2, 1])],
            &[(0, &[0, 8, 6, 2, 1])],
        ],
    },
];

// Two triangles and an edge on one vertex.
static SPREAD_ENDS: [(u32, u32); 7] = [(0, 1), (1, 2), (2, 0), (0, 3), (3, 4), (4, 0), (0, 5)];

static SPREAD: Stretch = Stretch {
    rounds: &[&[], &[0, 1], &[1, 2], &[3, 4], &[4, 5], &[6]],
    members: &[
        &[(0, &[0, 2, 3, 5, 6])],
        &[(0, &[0, 2, 3, 6, 5])],
        &[(0, &[0, 2, 5, 3, 6])],
        &[(0, &[0, 2, 5, 6, 3])],
        &[(0, &[0, 2, 6, 3, 5])],
        &[(0, &[0, 2, 6, 5, 3])],
        &[(0, &[0, 3, 5, 2, 6])],
        &[(0, &[0, 3, 5, 6, 2])],
        &[(0, &[0, 3, 6, 5, 2])],
        &[(0, &[0, 5, 3, 2, 6])],
        &[(0, &[0, 5, 3, 6, 2])],
        &[(0, &[0, 5, 6, 3, 2])],
        &[(0, &[0, 6, 2, 3, 5])],
        &[(0, &[0, 6, 2, 5, 3])],
        &[(0, &[0, 6, 3, 5, 2])],
        &[(0, &[0, 6, 5, 3, 2])],
    ],
};

// Three triangles on one vertex.
static HUB_ENDS: [(u32, u32); 9] = [
    (0, 1),
    (1, 2),
    (2, 0),
    (0, 3),
    (3, 4),
    (4, 0),
    (0, 5),
    (5, 6),
    (6, 0),
];

// Two complete graphs on four vertices with a common vertex.
static TWO_ENDS: [(u32, u32); 12] = [
    (0, 1),
    (0, 2),
    (0, 3),
    (1, 2),
    (1, 3),
    (2, 3),
    (0, 4),
    (0, 5),
    (0, 6),
    (4, 5),
    (4, 6),
    (5, 6),
];

// The first of them turned over.
static TURNED: Stretch = Stretch {
    rounds: &[
        &[],
        &[0, 3, 4],
        &[1, 5, 3],
        &[2, 4, 5],
        &[6, 10, 9],
        &[7, 9, 11],
        &[8, 11, 10],
    ],
    members: &[
        &[(0, &[0, 2, 1, 6, 7, 8])],
        &[(0, &[0, 2, 1, 7, 8, 6])],
        &[(0, &[0, 2, 1, 8, 6, 7])],
        &[(0, &[0, 2, 6, 7, 8, 1])],
        &[(0, &[0, 2, 7, 8, 6, 1])],
        &[(0, &[0, 2, 8, 6, 7, 1])],
        &[(0, &[0, 6, 7, 8, 2, 1])],
        &[(0, &[0, 7, 8, 6, 2, 1])],
        &[(0, &[0, 8, 6, 7, 2, 1])],
    ],
};

// A vertex, a list for it, and what is answered.
type Given = (u32, Order, (u32, u32, u32));

// Whether lists are given to `set` or to `regroup`, the lists, and the place of the member that is there after them.
type Stage = (bool, &'static [Given], usize);

static CHAIN_STAGES: [Stage; 3] = [
    (
        false,
        &[
            (0, &[0, 3, 2, 5], (17, 0, 1)),
            (0, &[0, 2, 3], (6, 0, 0)),
            (0, &[0, 2, 3, 3], (6, 0, 0)),
            (4, &[4, 5, 7], (6, 4, 0)),
            (1, &[0, 1], (15, 0, 0)),
        ],
        0,
    ),
    (false, &[(0, &[3, 2, 0, 5], (0, 0, 0))], 6),
    (
        false,
        &[(0, &[2, 5, 3, 0], (0, 0, 0)), (4, &[5, 4, 6], (0, 0, 0))],
        3,
    ),
];

static CHAIN_SET: [Stage; 3] = [
    (true, &[(4, &[6, 5, 4], (0, 0, 0))], 1),
    (
        true,
        &[
            (0, &[0, 3, 2, 5], (17, 0, 1)),
            (0, &[0, 5, 3, 2], (0, 0, 0)),
        ],
        7,
    ),
    (true, &[(0, &[0, 2, 3, 5], (0, 0, 0))], 1),
];

static HUB_GIVEN: [Given; 3] = [
    (0, &[0, 6, 2, 8, 3, 5], (17, 0, 2)),
    (0, &[0, 2, 3, 6, 5, 8], (17, 1, 2)),
    (0, &[6, 0, 3, 2, 8, 5], (17, 0, 1)),
];

static FOUR_GIVEN: [Given; 1] = [(0, &[0, 2, 1, 6, 8], (16, 0, 0))];

static TWO_GIVEN: [Given; 5] = [
    (0, &[0, 1, 2, 6, 8, 7], (16, 1, 0)),
    (0, &[0, 2, 1, 6, 8, 7], (16, 0, 0)),
    (0, &[0, 6, 1, 8, 7, 2], (16, 1, 0)),
    (0, &[0, 6, 1, 7, 2, 8], (17, 0, 1)),
    (0, &[7, 8, 6, 1, 2, 0], (0, 0, 0)),
];

// How often the walk advances, the place of the member that is there then, how many of those after it are wanted, and how many
// there are.
type Wanted = (u32, usize, u32, usize);

static CHAIN_LISTED: [Wanted; 10] = [
    (0, 0, 0, 0),
    (0, 0, 1, 1),
    (0, 0, 3, 3),
    (0, 0, 6, 6),
    (0, 0, 7, 7),
    (0, 0, 8, 7),
    (0, 0, 10000, 7),
    (3, 3, 3, 3),
    (0, 3, 5, 4),
    (4, 7, 5, 0),
];

// The graph of these edges with its blocks in the plane.
fn placed(alloc: Global, vertices: u32, ends: &[(u32, u32)]) -> Result<Placed, Fail> {
    match Placed::of(alloc, vertices, ends)? {
        Some(graph) => Ok(graph),
        None => Err(Fail::from("not plane")),
    }
}

// A component of it with first arrangements.
fn first_of(alloc: Global, graph: &Placed, c: u32) -> Result<Walk, Fail> {
    match Walk::of(alloc, graph, c)? {
        Some(walk) => Ok(walk),
        None => Err(Fail::from("no component")),
    }
}

// The first component of the graph of these edges with first arrangements.
fn begin(alloc: Global, vertices: u32, ends: &[(u32, u32)]) -> Result<Walk, Fail> {
    first_of(alloc, &placed(alloc, vertices, ends)?, 0)
}

// The edges around vertex v in a member of a stretch.
fn order_at(rounds: &'static [Order], member: &'static [(u32, Order)], v: u32) -> Order {
    for (vertex, order) in member {
        if *vertex == v {
            return *order;
        }
    }
    match rounds.get(v as usize) {
        Some(order) => *order,
        None => &[],
    }
}

// Whether the lists are those of a member, for all vertices from 0 on.
fn is_member(lists: &Lists, rounds: &'static [Order], member: &'static [(u32, Order)]) -> bool {
    if lists.len() != rounds.len() {
        return false;
    }
    for i in 0..lists.len() {
        let v = lists.vertex(i);
        if v as usize != i || lists.edges(i) != order_at(rounds, member, v) {
            return false;
        }
    }
    true
}

// Whether the walk is at member `i` of a stretch.
fn stands_at(
    alloc: Global,
    walk: &Walk,
    stretch: &'static Stretch,
    i: usize,
) -> Result<bool, Fail> {
    match stretch.members.get(i) {
        Some(member) => Ok(is_member(&walk.lists(alloc)?, stretch.rounds, *member)),
        None => Ok(false),
    }
}

// Whether the walk is at member `from` of a stretch and continues through all that follow in it.
fn goes_through(
    alloc: Global,
    walk: &mut Walk,
    stretch: &'static Stretch,
    from: usize,
) -> Result<bool, Fail> {
    for i in from..stretch.members.len() {
        if i > from && !walk.step() {
            return Ok(false);
        }
        if !stands_at(alloc, walk, stretch, i)? {
            return Ok(false);
        }
    }
    Ok(true)
}

// How many of the next `n` members there are, where they are those of a stretch from a place on; nothing where they are not.
fn listed(
    alloc: Global,
    walk: &Walk,
    n: u32,
    stretch: &'static Stretch,
    from: usize,
) -> Result<Option<usize>, Fail> {
    let found = walk.after(alloc, n)?;
    let Some(members) = stretch.members.get(from..) else {
        return Ok(None);
    };
    if found.len() > members.len() {
        return Ok(None);
    }
    for i in 0..found.len() {
        if !is_member(&found[i], stretch.rounds, members[i]) {
            return Ok(None);
        }
    }
    Ok(Some(found.len()))
}

// How many times the walk goes on.
fn steps(walk: &mut Walk, limit: u32) -> u32 {
    for n in 0..limit {
        if !walk.step() {
            return n;
        }
    }
    limit
}

// Whether the walk lists and reaches what a table wants.
fn lists_as(
    alloc: Global,
    walk: &mut Walk,
    stretch: &'static Stretch,
    rows: &'static [Wanted],
) -> Result<bool, Fail> {
    for (times, place, n, found) in rows {
        if steps(walk, *times) != *times || !stands_at(alloc, walk, stretch, *place)? {
            return Ok(false);
        }
        if listed(alloc, walk, *n, stretch, place.saturating_add(1))? != Some(*found) {
            return Ok(false);
        }
    }
    Ok(true)
}

// Whether the members of the first component of a graph, from the present one on, are those of a stretch, listed and walked through.
fn has_members(alloc: Global, graph: &Placed, stretch: &'static Stretch) -> Result<bool, Fail> {
    let mut walk = first_of(alloc, graph, 0)?;
    let last = stretch.members.len().saturating_sub(1);
    if listed(alloc, &walk, 100, stretch, 1)? != Some(last) {
        return Ok(false);
    }
    if !goes_through(alloc, &mut walk, stretch, 0)? || walk.step() {
        return Ok(false);
    }
    stands_at(alloc, &walk, stretch, last)
}

// How many members follow in the first component of a graph, up to 100.
fn count_after(alloc: Global, graph: &Placed) -> Result<u32, Fail> {
    Ok(steps(&mut first_of(alloc, graph, 0)?, 100))
}

// What is answered to a list for a cut vertex: 0 where it is taken, 15 where there is no cut vertex, else the refusal by the number that
// is printed for it, and its numbers.
fn told(answer: Result<bool, RegroupFault>) -> (u32, u32, u32) {
    match answer {
        Ok(true) => (0, 0, 0),
        Ok(false) => (15, 0, 0),
        Err(RegroupFault::BadRotation(v)) => (6, v, 0),
        Err(RegroupFault::BlockOrder(b)) => (16, b, 0),
        Err(RegroupFault::Cross(b, c)) => (17, b, c),
        Err(RegroupFault::Memory) => (8, 0, 0),
    }
}

// Whether the answer to each list is the one in a table.
fn answers(alloc: Global, walk: &mut Walk, by_set: bool, rows: &'static [Given]) -> bool {
    for (v, edges, wanted) in rows {
        let answer = if by_set {
            walk.set(alloc, *v, *edges)
        } else {
            walk.regroup(alloc, *v, *edges)
        };
        if told(answer) != *wanted {
            return false;
        }
    }
    true
}

// Whether all stages end as a table has it.
fn passes(
    alloc: Global,
    walk: &mut Walk,
    stretch: &'static Stretch,
    stages: &'static [Stage],
) -> Result<bool, Fail> {
    for (by_set, rows, place) in stages {
        if !answers(alloc, walk, *by_set, *rows) || !stands_at(alloc, walk, stretch, *place)? {
            return Ok(false);
        }
    }
    Ok(true)
}

#[test]
fn walks_through_a_chain(rt: HostRuntime) -> Result<(), Fail> {
    let graph = placed(rt.alloc(), 7, &CHAIN_ENDS)?;
    assert!(rt; has_members(rt.alloc(), &graph, &CHAIN)?);
    Ok(())
}

#[test]
fn lists_what_follows(rt: HostRuntime) -> Result<(), Fail> {
    let mut walk = begin(rt.alloc(), 7, &CHAIN_ENDS)?;
    assert!(rt; lists_as(rt.alloc(), &mut walk, &CHAIN, &CHAIN_LISTED)?);
    Ok(())
}

#[test]
fn takes_and_refuses_lists(rt: HostRuntime) -> Result<(), Fail> {
    let mut walk = begin(rt.alloc(), 7, &CHAIN_ENDS)?;
    assert!(rt; passes(rt.alloc(), &mut walk, &CHAIN, &CHAIN_STAGES)?);
    assert!(rt; goes_through(rt.alloc(), &mut walk, &CHAIN, 3)?);
    Ok(())
}

#[test]
fn sets_lists(rt: HostRuntime) -> Result<(), Fail> {
    let mut walk = begin(rt.alloc(), 7, &CHAIN_ENDS)?;
    assert!(rt; passes(rt.alloc(), &mut walk, &CHAIN, &CHAIN_SET)?);
    assert!(rt; goes_through(rt.alloc(), &mut walk, &CHAIN, 1)?);
    Ok(())
}

#[test]
fn walks_through_the_members_of_a_block(rt: HostRuntime) -> Result<(), Fail> {
    let mut walk = begin(rt.alloc(), 6, &FOUR_ENDS)?;
    assert!(rt; answers(rt.alloc(), &mut walk, false, &FOUR_GIVEN));
    assert!(rt; goes_through(rt.alloc(), &mut walk, &FOUR[0], 0)? && walk.step());
    assert!(rt; goes_through(rt.alloc(), &mut walk, &FOUR[1], 0)? && !walk.step());
    Ok(())
}

// A block at its second member.
#[test]
fn walks_from_another_member(rt: HostRuntime) -> Result<(), Fail> {
    let mut graph = placed(rt.alloc(), 6, &FOUR_ENDS)?;
    assert!(rt; graph.lead(0) && has_members(rt.alloc(), &graph, &FOUR[1])?);
    Ok(())
}

#[test]
fn keeps_a_lock(rt: HostRuntime) -> Result<(), Fail> {
    let mut graph = placed(rt.alloc(), 6, &FOUR_ENDS)?;
    assert!(rt; graph.lock(0, 0) && has_members(rt.alloc(), &graph, &FOUR[0])?);
    Ok(())
}

#[test]
fn walks_around_three_blocks(rt: HostRuntime) -> Result<(), Fail> {
    let graph = placed(rt.alloc(), 6, &SPREAD_ENDS)?;
    assert!(rt; has_members(rt.alloc(), &graph, &SPREAD)?);
    Ok(())
}

#[test]
fn names_the_least_blocks(rt: HostRuntime) -> Result<(), Fail> {
    let mut hub = begin(rt.alloc(), 7, &HUB_ENDS)?;
    assert!(rt; answers(rt.alloc(), &mut hub, false, &HUB_GIVEN));
    assert_eq!(rt; steps(&mut hub, 100), 39);
    Ok(())
}

#[test]
fn names_the_least_changed_block(rt: HostRuntime) -> Result<(), Fail> {
    let mut two = begin(rt.alloc(), 7, &TWO_ENDS)?;
    assert!(rt; answers(rt.alloc(), &mut two, false, &TWO_GIVEN));
    Ok(())
}

#[test]
fn keeps_two_locks(rt: HostRuntime) -> Result<(), Fail> {
    let mut graph = placed(rt.alloc(), 7, &TWO_ENDS)?;
    assert_eq!(rt; count_after(rt.alloc(), &graph)?, 35);
    assert!(rt; graph.lead(0) && graph.lock(0, 0) && count_after(rt.alloc(), &graph)? == 17);
    assert!(rt; graph.lock(1, 0) && has_members(rt.alloc(), &graph, &TURNED)?);
    Ok(())
}

// The second component of the chain has one vertex, and its one member has no edges around it.
#[test]
fn has_a_member_of_one_vertex(rt: HostRuntime) -> Result<(), Fail> {
    let graph = placed(rt.alloc(), 7, &CHAIN_ENDS)?;
    let mut walk = first_of(rt.alloc(), &graph, 1)?;
    let lists = walk.lists(rt.alloc())?;
    assert!(rt; walk.cut_count() == 0 && lists.len() == 1 && lists.edges(0).is_empty());
    assert!(rt; !walk.step());
    assert!(rt; Walk::of(rt.alloc(), &graph, 2)?.is_none());
    Ok(())
}
