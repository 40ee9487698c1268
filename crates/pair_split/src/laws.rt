// The laws of split components: each is a function without a body, whose contract is the theorem.
//
// The lemmas that are used most, by their modules in proofs/:
//   Start, SplitOff, Finish state-start, state-split_off, state-end: the state of splitting, from the graph to its split components
//   Places          state-tight, common-current, current-common: the current family determines what two sides have in common
//   SmallBlock      small-split: blocks of one or two edges
//   Links           link-contained, contained-link, side-home: links as a list of pairs; where an edge is
//   Subtrees        side-below, side-above: on the far side of a link just where the chain of parents contains the component
//   TreeSides       all-linked, beyond-other, beyond-apart, beyond-some: the sides of the links of one component
//   Rerooted        rerooted, rerooted-parent: the tree with another root
//   Groups          group-some, group-once, group-common, end-touched: the groups of the items of a component
//   SkeletonFamily  common-lift, lift-common, skeleton-tight: a skeleton as a family
//   LargeSides      three-items, side-two, node-touch: how large components and sides are
//   Separations     separation-from, link-separation, separation-family: 2-separations of a graph

ghost use Rattle.pair_split.specs.Laws.{AnyRoot, BeyondALink, BeyondOneLink, GroupsMeetInEnds, InAGroup, InOneGroup, LinksAreSeparations, LinksBackAreOpposite, LinksConnect, OnOneSide, SeparationsOfFamily, SeparationsOfGraph, SidesHaveTwoEdges, VerticesOnOwnSide};

/// The law that the links of components are a tree in the usual sense: they connect all components, and from each component
/// each other one lies beyond exactly one link; so any component may be the root.
pub fn links_are_a_tree()
    ensures connect { LinksConnect }
    ensures sides { OnOneSide }
    ensures beyond { BeyondALink }
    ensures once { BeyondOneLink }
    ensures root { AnyRoot }
{}

/// The law that the groups of the items of a component part the edges of the graph, and meet only in ends of the items.
pub fn groups_part_the_edges()
    ensures some { InAGroup }
    ensures once { InOneGroup }
    ensures ends { GroupsMeetInEnds }
{}

/// The law that each link of split components of a block is a 2-separation of it: each side has at least two edges and is the
/// other side of the link back, just two vertices have edges of both, and each side touches all vertices of the component on
/// it.
pub fn links_are_separations()
    ensures separation { LinksAreSeparations }
    ensures opposite { LinksBackAreOpposite }
    ensures large { SidesHaveTwoEdges }
    ensures touched { VerticesOnOwnSide }
{}

/// The law that the 2-separations of a graph are those of its family.
pub fn separations_are_those_of_the_family()
    ensures of_family { SeparationsOfFamily }
    ensures of_graph { SeparationsOfGraph }
{}
