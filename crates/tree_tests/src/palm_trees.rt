// Palm trees worked out by hand, and a large cycle.

ghost use Rattle.std.specs.Prelude.{◌≡◌, ◌<◌, IfOk, IfSome, IsTrue};
ghost use Rattle.blocks.specs.Blocks.{IsBlockStructure};
ghost use Rattle.palm_tree.specs.PalmTree.{IsConnected, IsPalmTree};

use blocks::{Blocks, split};
use multigraph::Graph;
use palm_tree::PalmTree;
use std::alloc::{AllocError, Global};
use std::marker::Brand;
use std::sync::ledger::{Blank, Ledger};
use std::test::Fail;
use step_count::Steps;

const BAR: u32 = 99;

// A graph by the ends of its edges, and for each vertex its number, low1, low2 and its darts with a bar after them.
struct Row {
    vertices: u32,
    ends: &'static [(u32, u32)],
    told: &'static [u32],
}

static ROWS: [Row; 6] = [
    // a single vertex
    Row {
        vertices: 1,
        ends: &[],
        told: &[0, 0, 0, BAR],
    },
    // a triangle
    Row {
        vertices: 3,
        ends: &[(0, 1), (1, 2), (2, 0)],
        told: &[0, 0, 0, 0, BAR, 1, 0, 1, 1, BAR, 2, 0, 2, 2, BAR],
    },
    // a path of three vertices, from its middle: the children are attached by bridges, and the earlier one has the smaller
    // number
    Row {
        vertices: 3,
        ends: &[(0, 1), (0, 2)],
        told: &[0, 0, 0, 0, 1, BAR, 1, 1, 1, BAR, 2, 2, 2, BAR],
    },
    // a star from its middle
    Row {
        vertices: 4,
        ends: &[(0, 1), (0, 2), (0, 3)],
        told: &[
            0, 0, 0, 0, 1, 2, BAR, 1, 1, 1, BAR, 2, 2, 2, BAR, 3, 3, 3, BAR,
        ],
    },
    // two triangles at a cut vertex
    Row {
        vertices: 5,
        ends: &[(0, 1), (1, 2), (2, 0), (0, 3), (3, 4), (4, 0)],
        told: &[
            0, 0, 0, 0, 3, BAR, 3, 0, 3, 1, BAR, 4, 0, 4, 2, BAR, 1, 0, 1, 4, BAR, 2, 0, 2, 5, BAR,
        ],
    },
    // a bundle of four edges
    Row {
        vertices: 2,
        ends: &[(0, 1), (0, 1), (1, 0), (0, 1)],
        told: &[0, 0, 0, 0, BAR, 1, 0, 1, 1, 2, 3, BAR],
    },
];

// Whether all vertices are in one component.
fn is_connected(g: &Graph, structure: &Blocks) -> bool
    requires { IsBlockStructure g.now structure.now }
    ensures { IsTrue result → IsConnected g.now }
{
    for v in 0..g.vertex_count() {
        if structure.component_of(v) != 0 {
            return false;
        }
    }
    true
}

// The palm tree of a graph, where it is connected.
fn tree_of(alloc: Global, g: &Graph) -> Result<Option<PalmTree>, AllocError>
    ensures { IfOk result (λ answer. IfSome answer (IsPalmTree g.now)) }
{
    let structure = split(alloc, g)?;
    if !is_connected(g, &structure) {
        return Ok(None);
    }
    Ok(Some(PalmTree::grow(alloc, g)?))
}

// For each vertex its number, low1, low2 and its darts with a bar after them.
fn described(alloc: Global, g: &Graph, tree: &PalmTree) -> Result<Vec<u32>, AllocError>
    requires { IsPalmTree g.now tree.now }
{
    let mut told = Vec::new(alloc);
    for v in 0..g.vertex_count() {
        told.push(tree.number(v))?;
        told.push(tree.low1(v))?;
        told.push(tree.low2(v))?;
        told.extend_from_slice(tree.darts(v))?;
        told.push(BAR)?;
    }
    Ok(told)
}

// The palm tree of a connected graph, grown with counted steps.
fn grow_counted<L: Ledger>(alloc: Global, g: &Graph, blank: Blank) -> Result<PalmTree, AllocError>
    requires connected { IsConnected g.now }
    requires name { blank.name ≡ L.name }
    requires parts { blank.parts ≡ L.parts }
    requires some { 0 < blank.parts }
    ensures { IfOk result (IsPalmTree g.now) }
{
    let mut steps = Steps::<L>::new(blank);
    PalmTree::grow_counted(alloc, g, &mut steps)
}

#[test]
fn counting_changes_no_palm_tree(rt: HostRuntime) -> Result<(), Fail> {
    let alloc = rt.alloc();
    let g = Graph::build(alloc, 3, &[(0, 1), (1, 2), (2, 0)])?;
    let structure = split(alloc, &g)?;
    if !is_connected(&g, &structure) {
        return Err(Fail::from("in several components"));
    }
    let tree = PalmTree::grow(alloc, &g)?;
    let counted = grow_counted::<Brand>(alloc, &g, Blank::new(1))?;
    assert_eq!(rt;
        described(alloc, &g, &counted)?.as_slice(),
        described(alloc, &g, &tree)?.as_slice()
    );
    Ok(())
}

#[test]
fn worked_rows(rt: HostRuntime) -> Result<(), Fail> {
    let alloc = rt.alloc();
    for row in &ROWS {
        let g = Graph::build(alloc, row.vertices, row.ends)?;
        match tree_of(alloc, &g)? {
            Some(tree) => assert_eq!(rt; described(alloc, &g, &tree)?.as_slice(), row.told),
            None => assert!(rt; false),
        }
    }
    Ok(())
}

#[test]
fn a_long_cycle(rt: HostRuntime) -> Result<(), Fail> {
    let alloc = rt.alloc();
    let mut ends = Vec::new(alloc);
    for v in 0..19999u32 {
        ends.push((v, v + 1))?;
    }
    ends.push((19999, 0))?;
    let g = Graph::build(alloc, 20000, &ends)?;
    match tree_of(alloc, &g)? {
        Some(tree) => {
            let told = described(alloc, &g, &tree)?;
            assert_eq!(rt; told.len(), 100000);
            assert_eq!(rt; &told[..10], [0, 0, 0, 0, BAR, 1, 0, 1, 1, BAR].as_slice());
        }
        None => assert!(rt; false),
    }
    Ok(())
}
