// The summary of a made graph.
ghost use Rattle.std.specs.Prelude.{◌≡◌, ◌<◌, ◌≤◌, ℕ, List, false, length, IfOk};
ghost use Rattle.choice_lists.specs.Choices.{mirror_choice};
ghost use Rattle.skeletons.specs.Choices.{choice};
ghost use Rattle.skel_embed.specs.Block.{lock_at};
ghost use Rattle.skel_embed.specs.First.{IsFirst};
ghost use Rattle.embed_enum.specs.Walk.{IsMemberList};
ghost use Rattle.made_graph.specs.Laws.{HasFork};
ghost use Rattle.made_graph.specs.Made.{made, max_asked};
ghost use Rattle.made_summary.specs.Summary.{IsSummary};
ghost use Rattle.made_summary.specs.Text.{fitting};

use crate::kinds::{count_kinds, least_with_choices};
use crate::text::lines;
use embed_enum::count;
use made_graph::make_graph;
use pair_split::Splitter;
use planarity::Embedder;
use skel_embed::{Outcome, PlaneBlock, plane_block};
use spqr_tree::Tree;
use std::alloc::{AllocError, Global};

// The same cyclic order reversed, from the same first key.
fn mirrored(alloc: Global, keys: &[u32]) -> Result<Vec<u32>, AllocError>
    ensures { IfOk result (λ l. l.items ≡ mirror_choice keys.now) }
{
    let mut list = Vec::from_slice(alloc, keys)?;
    if !list.is_empty() {
        list[1..].reverse();
    }
    Ok(list)
}

// How many plane rotation systems the block has, where they are fewer than 2^128.
fn counted(p: &PlaneBlock) -> Option<u128>
    ensures { (l : List (List (List ℕ))) → IsMemberList p.now l → result ≡ fitting (length l) }
{
    match count(p) {
        Ok(n) => Some(n),
        Err(_) => None,
    }
}

// The choice of node k at the first and at the last of the plane rotation systems of a block
// whose current one is the first.
fn choices(alloc: Global, p: &PlaneBlock, k: u32) -> Result<(Vec<u32>, Vec<u32>), AllocError>
    requires { k < length p.now.tree }
    ensures first { IfOk result (λ both. both.0.items ≡ choice p.now.tree p.now.rotation k) }
    ensures last { IfOk result (λ both. both.1.items ≡ mirror_choice
        (choice p.now.tree p.now.rotation k)) }
{
    let first = p.choice(alloc, k)?;
    let last = mirrored(alloc, &first)?;
    Ok((first, last))
}

// The summary of a block whose current plane rotation system is the first.
fn summary_of(alloc: Global, p: &PlaneBlock) -> Result<Vec<u8>, AllocError>
    requires first { IsFirst p.now.graph p.now.tree p.now.rotation }
    requires unlocked { (k : ℕ) → k < length p.now.tree → lock_at p.now.locks k ≡ false }
    requires fork { HasFork p.now.graph }
    ensures { IfOk result (λ text. IsSummary p.now.graph text.items) }
{
    let graph = p.graph();
    let tree = p.tree();
    let Some(k) = least_with_choices(tree) else {
        unreachable!();
    };
    let (first, last) = choices(alloc, p, k)?;
    let numbers = (graph.vertex_count(), graph.edge_count());
    lines(
        alloc,
        numbers,
        count_kinds(tree),
        counted(p),
        k,
        (&first, &last),
    )
}

/// The summary of the graph that is made from the number `seed`, of `n` edges or up to four more, as a text of five lines: how
/// many vertices and edges it has, how many polygons, bonds and triconnected nodes its tree, and how many plane rotation systems
/// there are (`over` from 2^128 on); then the least node that has choices, with its choice at the first and at the last plane
/// rotation system, in the order by the first node at which the choices differ (Di Battista and Tamassia 1996). Fails only
/// if memory runs out.
pub fn summary<P: Splitter, E: Embedder>(
    alloc: Global,
    n: u32,
    seed: u64,
    splitter: &mut P,
    embedder: &mut E,
) -> Result<Vec<u8>, AllocError>
    requires least { 6 ≤ n }
    requires most { n ≤ max_asked }
    ensures { IfOk result (λ text. IsSummary (made n seed) text.items) }
{
    let graph = make_graph(alloc, n, seed)?;
    let comps = splitter.split(alloc, &graph)?;
    let tree = Tree::assemble(alloc, &graph, comps)?;
    match plane_block(alloc, graph, tree, embedder)? {
        Outcome::Plane(block) => summary_of(alloc, &block),
        Outcome::Not(_) => unreachable!(),
    }
}
