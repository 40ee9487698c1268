// The certificate of a block from that of the skeleton of one of its nodes.

ghost use Rattle.std.specs.Prelude.{◌≡◌, ◌<◌, length, IfOk};
ghost use Rattle.kuratowski.specs.Subdivision.{IsWritten};
ghost use Rattle.pair_split.specs.Tutte.{node_at};
ghost use Rattle.skeletons.specs.Items.{IsBlockTree};
ghost use Rattle.skeletons.specs.Families.{skeleton_graph};
ghost use Rattle.kuratowski.specs.Routes.{AreRoutes, lifted_branches};
ghost use Rattle.block_obstruct.specs.Groups.{AreGroupLists, AreItemRoutes};

use crate::groups::groups;
use graph_paths::path_along;
use kuratowski::{Subdivision, lift};
use multigraph::{Graph, Numbers};
use spqr_tree::Tree;
use std::alloc::{AllocError, Global};

// For each item of node k a path of the block from the item's first end to its second, through its group.
fn routes_through(
    alloc: Global,
    g: &Graph,
    tree: &Tree,
    k: u32,
    groups: &[Numbers],
) -> Result<Vec<Numbers>, AllocError>
    requires node { k < length tree.now }
    requires block { IsBlockTree g.now tree.now }
    requires groups { AreGroupLists g.now tree.now k groups.now }
    ensures { IfOk result (λ routes. AreItemRoutes g.now tree.now k
        (length (node_at tree.now k).items) routes.items) }
{
    let items = tree.items(k);
    let mut routes = Vec::new(alloc);
    for (i, item) in items.iter().enumerate() {
        let route = path_along(alloc, g, groups[i].as_slice(), item.a, item.b)?;
        routes.push(route)?;
    }
    Ok(routes)
}

/// For each item of node `k` of the tree of the block `g`, in the order of the node's items, a path of the block from the item's
/// first end to its second, as a list of edges of the item's group. A real edge's path is the edge itself.
///
/// These paths are routes of the node's skeleton, as `lift` takes them: two of them share no vertex but common ends, and none has a
/// vertex of the node inside. Takes time and memory as m log m for a block of m edges, whatever the number of items. Fails only if
/// memory runs out.
pub fn item_routes(
    alloc: Global,
    g: &Graph,
    tree: &Tree,
    k: u32,
) -> Result<Vec<Numbers>, AllocError>
    requires node { k < length tree.now }
    requires block { IsBlockTree g.now tree.now }
    ensures through { IfOk result (λ routes. AreItemRoutes g.now tree.now k
        (length (node_at tree.now k).items) routes.items) }
    ensures routes { IfOk result (λ routes. AreRoutes (skeleton_graph tree.now k) g.now
        (node_at tree.now k).vertices routes.items) }
{
    // A graph has few edges, so the node has few items.
    let _ = g.edge_count();
    let parts = groups(alloc, g, tree, k)?;
    routes_through(alloc, g, tree, k, &parts)
}

/// Carries a subdivision of a pattern, in its written form, from the skeleton of node `k` of the tree of the block `g` into the
/// block.
///
/// `skeleton` is the skeleton of the node as a graph of its own, as `Tree::skeleton` gives it. Each branch vertex becomes the vertex
/// of the node that it is, and each item on a path becomes a path of the block through the item's group: so no edge of the result is
/// virtual. Takes time and memory as m log m for a block of m edges, whatever the number of items. Fails only if memory runs out.
pub fn obstruct_block(
    alloc: Global,
    g: &Graph,
    tree: &Tree,
    k: u32,
    skeleton: &Graph,
    s: &Subdivision,
) -> Result<Subdivision, AllocError>
    requires node { k < length tree.now }
    requires block { IsBlockTree g.now tree.now }
    requires skeleton { skeleton.now ≡ skeleton_graph tree.now k }
    requires written { IsWritten skeleton.now s.now.kind s.now.branch s.now.paths }
    ensures written { IfOk result (λ w. IsWritten g.now w.kind w.branch w.paths) }
    ensures kind { IfOk result (λ w. w.kind ≡ s.now.kind) }
    ensures branches { IfOk result (λ w. w.branch
        ≡ lifted_branches (node_at tree.now k).vertices s.now.branch) }
{
    let routes = item_routes(alloc, g, tree, k)?;
    lift(alloc, skeleton, g, s, tree.vertices(k), &routes)
}
