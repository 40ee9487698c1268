// Graphs whose blocks are all planar, and walks through the lists of their components, as the tests of these begin with them.

ghost use Rattle.std.specs.Prelude.{◌≡◌, ◌<◌, length, true, ⊤, IfOk, MatchOption};
ghost use Rattle.permutations.specs.Members.{is_member, place_of};
ghost use Rattle.blocks.specs.Blocks.{IsBlockStructure, block_at};
ghost use Rattle.embed_tests.specs.Wholes.{IsPlaneMember, ArePlaneMembers, KeepsPlane, AreReady};

use blocks::{Blocks, split};
use contract_embed::ContractEmbedder;
use embed_enum::next;
use multigraph::{BuildFault, Graph};
use pair_split::{PairSplitter, Splitter};
use rotations::Lists;
use skel_embed::{Outcome, plane_block};
use spqr_tree::Tree;
use std::alloc::{AllocError, Global};
use std::marker::Model;
use whole_convert::{WholeFault, WholeMove, whole_moves};
use whole_embed::{Cuts, Member, RegroupFault, list_after, next_whole, regroup, set, whole};

// Block b of a graph at its first plane rotation system; none where it is not planar.
fn member_of(
    alloc: Global,
    graph: &Graph,
    blocks: &Blocks,
    b: u32,
) -> Result<Option<Member>, AllocError>
    requires structure { IsBlockStructure graph.now blocks.now }
    requires block { b < length blocks.now.blocks }
    ensures { IfOk result (λ found. MatchOption found ⊤ (IsPlaneMember graph.now (block_at blocks.now.blocks b))) }
{
    let part = graph.part(alloc, blocks.edges(b))?;
    let comps = PairSplitter::new().split(alloc, part.graph())?;
    let tree = Tree::assemble(alloc, part.graph(), comps)?;
    match plane_block(
        alloc,
        part.graph().copy(alloc)?,
        tree,
        &mut ContractEmbedder,
    )? {
        Outcome::Plane(plane) => {
            plane.belongs();
            Ok(Some(Member {
                part,
                plane: Some(plane),
            }))
        }
        Outcome::Not(_) => Ok(None),
    }
}

// All blocks of a graph, each at its first plane rotation system; none where one is not planar.
fn members_of(
    alloc: Global,
    graph: &Graph,
    blocks: &Blocks,
) -> Result<Option<Vec<Member>>, AllocError>
    requires { IsBlockStructure graph.now blocks.now }
    ensures { IfOk result (λ found. MatchOption found ⊤ (λ all. ArePlaneMembers graph.now
        blocks.now.blocks (length blocks.now.blocks) all.items)) }
{
    let mut all = Vec::new(alloc);
    for b in 0..blocks.block_count() {
        match member_of(alloc, graph, blocks, b)? {
            Some(member) => all.push(member)?,
            None => return Ok(None),
        }
    }
    Ok(Some(all))
}

// Locks node k of a block; false where there is none.
fn lock_node(member: &mut Member, k: u32) -> bool
    ensures { KeepsPlane member.old member.new }
{
    match &mut member.plane {
        Some(plane) => {
            let found = k < plane.tree().node_count();
            if found {
                plane.set_lock(k, true);
            }
            plane.belongs();
            found
        }
        None => false,
    }
}

// Leads a block to the next member of its list; false where it is at the last.
fn lead_on(member: &mut Member) -> bool
    ensures { KeepsPlane member.old member.new }
{
    match &mut member.plane {
        Some(plane) => {
            let moved = next(plane);
            plane.belongs();
            moved
        }
        None => false,
    }
}

/// A graph whose blocks are in the plane. Contracts see the number of its blocks.
#[derive(Debug, Drop)]
pub struct Placed {
    graph: Graph,
    blocks: Blocks,
    all: Vec<Member>,
}

impl Model for Placed {
    ghost use Rattle.std.specs.Prelude.{ℕ, length};
    ghost use Rattle.blocks.specs.Blocks.{IsBlockStructure};
    ghost use Rattle.embed_tests.specs.Wholes.{ArePlaneMembers};

    ghost Value = { ℕ };

    ghost view = { λ p. length p.all.items };

    ghost invariant = { λ p. IsBlockStructure p.graph p.blocks × ArePlaneMembers p.graph p.blocks.blocks (length p.blocks.blocks) p.all.items };
}

impl Placed {
    /// The graph of these edges; `None` where it is none, or a block is not planar. Fails only if memory runs out.
    pub fn of(
        alloc: Global,
        vertices: u32,
        ends: &[(u32, u32)],
    ) -> Result<Option<Placed>, AllocError> {
        let graph = match Graph::build(alloc, vertices, ends) {
            Ok(graph) => graph,
            Err(BuildFault::Memory) => return Err(AllocError),
            Err(_fault) => return Ok(None),
        };
        let blocks = split(alloc, &graph)?;
        match members_of(alloc, &graph, &blocks)? {
            Some(all) => Ok(Some(Placed { graph, blocks, all })),
            None => Ok(None),
        }
    }

    /// Locks node `k` of block `b`; returns false where there is none.
    pub fn lock(&mut self, b: u32, k: u32) -> bool {
        if (b as usize) < self.all.len() {
            lock_node(&mut self.all[b as usize], k)
        } else {
            false
        }
    }

    /// How many cut vertices component `c` has, with the first arrangements made and dropped; `None` where there is no such component.
    /// Fails only if memory runs out.
    pub fn count_cuts(&self, alloc: Global, c: u32) -> Result<Option<usize>, AllocError> {
        match first_cuts(alloc, &self.graph, &self.blocks, &self.all, c)? {
            Some(cuts) => Ok(Some(cuts.count())),
            None => Ok(None),
        }
    }

    /// Leads block `b` to the next member of its list; returns false where there is none.
    pub fn lead(&mut self, b: u32) -> bool {
        if (b as usize) < self.all.len() {
            lead_on(&mut self.all[b as usize])
        } else {
            false
        }
    }
}

// Component c with the first arrangements; none where there is no such component.
fn first_cuts(
    alloc: Global,
    graph: &Graph,
    blocks: &Blocks,
    all: &[Member],
    c: u32,
) -> Result<Option<Cuts>, AllocError>
    requires structure { IsBlockStructure graph.now blocks.now }
    requires members { ArePlaneMembers graph.now blocks.now.blocks (length blocks.now.blocks) all.now }
    ensures { IfOk result (λ found. MatchOption found ⊤ (λ cuts. AreReady cuts all.now)) }
{
    if c >= blocks.component_count() {
        return Ok(None);
    }
    graph.keeps_limits();
    let cuts = Cuts::first(alloc, graph, blocks, c, all)?;
    cuts.keeps();
    Ok(Some(cuts))
}

// A copy of the list of blocks.
fn copies(alloc: Global, all: &[Member]) -> Result<Vec<Member>, AllocError>
    ensures { IfOk result (λ copies. copies.items ≡ all.now) }
{
    let mut copies = Vec::with_capacity(alloc, all.len())?;
    for member in all {
        copies.push(member.copy(alloc)?)?;
    }
    Ok(copies)
}

// The place of a cut vertex among those of its component; none where it is not one.
fn place_in(cuts: &Cuts, v: u32) -> Option<usize>
    ensures { MatchOption result ⊤ (λ i. (is_member v cuts.now.component.cuts ≡ true)
        × (i ≡ place_of cuts.now.component.cuts v)) }
{
    match cuts.frame().cuts().binary_search(&v) {
        Ok(i) => Some(i),
        Err(_) => None,
    }
}

/// A component of a graph in the plane with an arrangement at each of its cut vertices, and all blocks of the graph. Contracts see
/// the number of the blocks.
#[derive(Debug, Drop)]
pub struct Walk {
    all: Vec<Member>,
    cuts: Cuts,
}

impl Model for Walk {
    ghost use Rattle.std.specs.Prelude.{ℕ, length};
    ghost use Rattle.embed_tests.specs.Wholes.{AreReady};

    ghost Value = { ℕ };

    ghost view = { λ w. length w.all.items };

    ghost invariant = { λ w. AreReady w.cuts w.all.items };
}

impl Walk {
    /// Component `c` with the first arrangements, over a copy of the blocks; `None` where there is no such component. Fails only if
    /// memory runs out.
    pub fn of(alloc: Global, placed: &Placed, c: u32) -> Result<Option<Walk>, AllocError> {
        match first_cuts(alloc, &placed.graph, &placed.blocks, &placed.all, c)? {
            Some(cuts) => {
                let all = copies(alloc, &placed.all)?;
                Ok(Some(Walk { all, cuts }))
            }
            None => Ok(None),
        }
    }

    /// The number of cut vertices.
    pub fn cut_count(&self) -> usize {
        self.cuts.count()
    }

    /// Goes to the next member of the list; returns false where it is at the last.
    pub fn step(&mut self) -> bool {
        next_whole(&mut self.cuts, &mut self.all)
    }

    /// The edges around each vertex. Fails only if memory runs out.
    pub fn lists(&self, alloc: Global) -> Result<Lists, AllocError> {
        whole(alloc, &self.cuts, &self.all)
    }

    /// The next `n` members. Fails only if memory runs out.
    pub fn after(&self, alloc: Global, n: u32) -> Result<Vec<Lists>, AllocError> {
        list_after(alloc, &self.cuts, &self.all, n)
    }

    /// The moves to another rotation system. Fails as `whole_moves` does.
    pub fn moves(&self, alloc: Global, target: &Lists) -> Result<Vec<WholeMove>, WholeFault> {
        whole_moves(alloc, &self.cuts, &self.all, target)
    }

    /// Sets the list at vertex `v` where it is an arrangement; returns false where `v` is no cut vertex.
    pub fn regroup(&mut self, alloc: Global, v: u32, edges: &[u32]) -> Result<bool, RegroupFault> {
        match place_in(&self.cuts, v) {
            Some(_) => {
                regroup(alloc, &mut self.cuts, &self.all, v, edges)?;
                Ok(true)
            }
            None => Ok(false),
        }
    }

    /// The same by `set`: the list is tried on a copy, and set as it is kept there.
    pub fn set(&mut self, alloc: Global, v: u32, edges: &[u32]) -> Result<bool, RegroupFault> {
        match place_in(&self.cuts, v) {
            Some(i) => {
                let mut other = self.cuts.copy(alloc)?;
                regroup(alloc, &mut other, &self.all, v, edges)?;
                set(&mut self.cuts, v, other.list(i));
                Ok(true)
            }
            None => Ok(false),
        }
    }
}
