// What is made before the climbs: where the edges are, the links to the nodes from their parents, the ranks of the nodes, and the table that is
// filled.

ghost use Rattle.std.specs.Prelude.{◌+◌, length, IfOk};
ghost use Rattle.multigraph.specs.Graph.{IsWithinLimits};
ghost use Rattle.skeletons.specs.Items.{IsBlockTree};
ghost use Rattle.skel_compose.specs.Homes.{HasHomes};
ghost use Rattle.skel_compose.specs.Followers.{IsTable};
ghost use Rattle.skel_decompose.specs.Orders.{HangFromFirst, IsOrderOf};
ghost use Rattle.skel_decompose.specs.Ups.{HaveUps, AreRanks};

use crate::lists::FlatLists;
use crate::ordering::Order;
use crate::table::push_blank;
use crate::ups::{UpLink, note_ups, ranks_of};
use multigraph::Graph;
use skel_compose::put_homes;
use spqr_tree::Tree;
use std::alloc::{AllocError, Global};

// Of each edge its node and item, the links to the nodes from their parents, the ranks of the nodes, and a table
// in which nothing is written yet.
#[derive(Drop)]
pub(crate) struct Survey {
    pub(crate) homes: Vec<(u32, u32)>,
    pub(crate) ups: Vec<UpLink>,
    pub(crate) ranks: Vec<u32>,
    pub(crate) table: FlatLists,
}

// The survey of a block's tree. In linear time. Fails only if memory runs out.
pub(crate) fn surveyed(
    alloc: Global,
    g: &Graph,
    tree: &Tree,
    order: &Order,
) -> Result<Survey, AllocError>
    requires block { IsBlockTree g.now tree.now }
    requires limits { IsWithinLimits g.now }
    requires order { IsOrderOf tree.now order.now.parents.items order.now.nodes.items }
    requires first { HangFromFirst tree.now order.now.parents.items }
    ensures homes { IfOk result (λ s. HasHomes g.now tree.now (length tree.now) 0 s.homes.items) }
    ensures ups { IfOk result (λ s. HaveUps tree.now (length tree.now) 1 s.ups.items) }
    ensures ranks { IfOk result (λ s. AreRanks tree.now s.ranks.items) }
    ensures table { IfOk result (λ s. IsTable tree.now s.table) }
{
    let nodes = tree.node_count();
    let none = UpLink {
        node: 0,
        item: 0,
        lesser: 0,
    };
    let ranks = ranks_of(alloc, tree, order)?;
    let mut homes = vec![in alloc; (0, 0); g.edge_count() as usize]?;
    let mut ups = vec![in alloc; none; nodes as usize]?;
    let mut table = FlatLists::with_capacity(alloc, nodes as usize)?;
    let mut blank = Vec::new(alloc);
    for k in 0..nodes {
        put_homes(g, tree, k, &mut homes);
        note_ups(tree, k, &mut ups);
        push_blank(tree, k, &mut blank, &mut table)?;
    }
    Ok(Survey {
        homes,
        ups,
        ranks,
        table,
    })
}
