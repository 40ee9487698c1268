// The tree of a block is the only one (Tutte 1966; Cunningham and Edmonds 1980).
//
// A 2-separation of a graph is a division of its edges into two sides of at least two edges each, of which just two vertices
// have edges of both. Two divisions cross where each side of the one has an edge in common with each side of the other; a
// 2-separation is good where it crosses no other. graph_theory defines these (specs/Separation.antt); proved are the laws
// below: the pairs of sides of the links of a block's tree are exactly the good 2-separations, each of one link; and two trees
// of one block are equal, in their numbering too. There is no code here.
//
// Two 2-separations that cross cut the edges into four corners. By counting vertices, either two vertices are touched by all
// four corners and no other by two, or there are four vertices that are each touched by two neighbouring corners and no other
// by two. Viewed from a component of a link that is crossed, the first makes the component a bond, and the second a polygon, on
// either side of the link; but no link joins two bonds or two polygons. Conversely, where a good 2-separation crosses no link,
// a walk along the links ends at a component each group of which lies on one side; and in a triconnected component, a bond or a
// polygon such a side is one group, or the other side is, or another 2-separation crosses it. So two trees have the same sides
// of links; to each node of the one a node of the other has the same groups, and with them the same keys, ends, vertices and
// kind.
//
// The lemmas, by their modules in proofs/:
//   Corners         corners of two crossing 2-separations: bond-type, ring-type
//   Sides           touches-from, common-shared, corner-tests: sides of a block's edges
//   Toward, Away    beyond-nest, sink, away, side-within, side-tells, places-tell: the sides of links, from afar
//   Items           place, at-edge, edges-at, link-place, place-real: edges by the item of a component in whose group they are
//   SkeletonKinds   polygon-two, polygon-simple, rigid-simple, rigid-apart: skeletons of the kinds
//   Splits          halves, find-parted, coloured-at: a side of the edges, viewed at one component
//   BondType        bond-rigid, bond-polygon; RingType: ring-bond, ring-rigid; Crossed: link-good
//   GoodSides       good-link; Matched: match; SameItems: key-same, ends-same, kinds-same; KindOnce: kind-once
//   SameTrees       links-good, good-links, sides-tell, trees-equal
#![tactic(auto)]

ghost use Rattle.tree_unique.specs.Laws.{GoodAreLinks, LinksAreGood, SidesTellLinks, TreesAreEqual};

/// The law that the links of the tree of a block are its good 2-separations: the two sides of each link are a good
/// 2-separation; each side of a good 2-separation is that of a link; and it is that of one link only (Tutte 1966; Cunningham
/// and Edmonds 1980).
pub fn links_are_the_good_separations()
    ensures good { LinksAreGood }
    ensures all { GoodAreLinks }
    ensures once { SidesTellLinks }
{}

/// The law that a block has one tree: any two lists of nodes that are its tree are equal.
pub fn a_block_has_one_tree()
    ensures equal { TreesAreEqual }
{}
