// Plane rotation systems of a block and of its skeletons: theory without code that runs.
//
// A rotation system of a block in which the groups of all nodes are in runs follows a family: a rotation system of each
// skeleton. The main theorem is that it is plane exactly where each member of the family is; so a block has a plane rotation
// system exactly where each triconnected skeleton has one. The skeletons' maps of darts, side by side, are one map. Its parts
// are glued along the links of the tree, one after the other: the two edges of a link are used up, and the darts after the one
// are followed by those after the other (the two-sum; Tutte 1966, Di Battista and Tamassia 1996). Each gluing keeps a map
// plane, and so does reading it backwards, since no edge of a skeleton is a bridge: at the two vertices of the gluing the edge
// can be put back into a face of what came of it, and then the other part can be left away. What is glued in the end is the
// rotation system. This needs no list of the edges around a vertex: where the edges that a dart represents end, those that
// the next dart represents begin, and a gluing keeps this, for where the edges beyond a link begin those on its other side end.
// Skeletons of polygons have one rotation system, and it is plane; one of a bond is plane exactly where the order at the one
// pole is the reverse of that at the other.
//
// The lemmas that are used most, by their modules in proofs/:
//   Facing, Joined  AreFacing, AreJoined: two edges that can be glued, and what follows each dart then
//   Spread       spread: a test that has one value along one side of the gluing has it at both ends of an edge that is no bridge
//   Unglued      unglue-plane: gluing, read backwards; Bridges joined-no_bridge; Exact gluing-exact
//   Stages       all-stages: a map glued along many links, and what stays of it
//   Coded, Union, ManyParts  united-plane: maps side by side; many-plane: a map in many parts
//   RunEnds      run-followed: the key after the end of a run; Complements follows-itself, begins-ends
//   SkeletonDarts, Whole, Linked, LinkPairs, TreeLinks  the skeletons as one map, and the links of the tree in it
//   Followed     follows-plane, follows-plane_back: the main theorem; Planar planar-skeletons, skeleton-planar
//   PolygonSkeleton polygon-system_plane; BondSkeleton reversed-plane, plane-reversed; OneSystem polygon-one, bond-one, small-one
#![tactic(auto)]

ghost use Rattle.skeletons.specs.Laws.{PlaneWhereMembersAre, PlanarWhereSkeletonsAre};
ghost use Rattle.skeleton_planes.specs.Laws.{BondHasEachOrder, BondIsPlaneWhereReversed, GluingIsExact, PolygonHasOneSystem, SmallHasOneSystem};

/// The law that a rotation system of a block that follows a family of rotation systems of the skeletons is plane exactly where
/// each of them is; and that a block has a plane rotation system exactly where each triconnected skeleton has one.
pub fn skeletons_tell_plane()
    ensures members { PlaneWhereMembersAre }
    ensures planar { PlanarWhereSkeletonsAre }
{}

/// The law on skeletons that are not triconnected: a polygon has one rotation system, and it is plane, as has a block of one
/// edge or two; a rotation system of a bond is plane exactly where the order at the one pole is the reverse of that at the
/// other, and each cyclic order of its items is that of a plane one.
pub fn plane_systems_of_small_skeletons()
    ensures polygon { PolygonHasOneSystem }
    ensures bond { BondIsPlaneWhereReversed }
    ensures bond_orders { BondHasEachOrder }
    ensures small { SmallHasOneSystem }
{}

/// The law that gluing two components of a map along an edge of each, neither of them a bridge, is exact: what comes of it is
/// plane exactly where the map is.
pub fn gluing_is_exact()
    ensures { GluingIsExact }
{}
