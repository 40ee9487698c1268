// Climbs in the tree from two edges that follow one another around a vertex to the node where they meet.

ghost use Rattle.std.specs.Prelude.{◌<◌, List, ℕ, length};
ghost use Rattle.multigraph.specs.Graph.{Multigraph};
ghost use Rattle.skel_compose.specs.Homes.{IsHome, HasHomes};
ghost use Rattle.skel_compose.specs.Followers.{IsTable};
ghost use Rattle.skel_decompose.specs.Followers.{IsFamily, IsStep, Keeps, HasLast};
ghost use Rattle.skel_decompose.specs.Ups.{HaveUps, AreRanks};

use crate::lists::FlatLists;
use crate::ups::UpLink;
use skel_compose::item_place;
use spqr_tree::Tree;

// Writes at the nodes on the way between two edges that the item of the next edge around v follows that of e. `home` is the node and the
// item that e is. It climbs from both edges towards the node with edge 0, always from the node of the higher rank, until it is at one node
// from both. At a node on the way up from one edge, the other edge is beyond the first item.
pub(crate) fn join(
    tree: &Tree,
    homes: &[(u32, u32)],
    ups: &[UpLink],
    ranks: &[u32],
    table: &mut FlatLists,
    home: (u32, u32),
    v: u32,
    e: u32,
    next: u32,
)
    requires step { (g : Multigraph) × (r : List (List ℕ)) × IsStep g tree.now r v e next
        × HasHomes g tree.now (length tree.now) 0 homes.now }
    requires ups { HaveUps tree.now (length tree.now) 1 ups.now }
    requires ranks { AreRanks tree.now ranks.now }
    requires node { home.0 < length tree.now }
    requires home { IsHome tree.now home.0 home.1 e }
    requires table { IsTable tree.now table.old }
    ensures table { IsTable tree.now table.new }
    ensures keeps { (g : Multigraph) (r : List (List ℕ)) (family : List (List (List ℕ)))
        → IsStep g tree.now r v e next → IsFamily tree.now r family
        → Keeps tree.now family table.old table.new }
    ensures last { (g : Multigraph) (r : List (List ℕ)) (family : List (List (List ℕ)))
        → IsStep g tree.now r v e next → IsFamily tree.now r family
        → HasLast tree.now r family table.new v e }
{
    let (mut k, mut i) = home;
    let mut place = item_place(tree, k, i, v);
    if e == next {
        table.set(k as usize, place, i);
        return;
    }
    let (mut m, mut p) = homes[next as usize];
    while k != m {
        if ranks[m as usize] < ranks[k as usize] {
            table.set(k as usize, place, 0);
            let up = ups[k as usize];
            place = up.place(v);
            k = up.node;
            i = up.item;
        } else {
            let up = ups[m as usize];
            table.set(m as usize, up.first_place(v), p);
            m = up.node;
            p = up.item;
        }
    }
    if i != p {
        table.set(k as usize, place, p);
    }
}
