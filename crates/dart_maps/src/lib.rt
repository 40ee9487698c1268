// Maps of darts: Euler's inequality, contraction, gluing and noncrossing: theory without code that runs.
//
// A map with m edges has 2m darts, two for each edge, one at each of its ends; `twin` goes from the one to the other, and a
// permutation `next` goes around the vertices. Leaving by a dart, arriving at its twin and continuing from there is the step
// along a face. The corner of a dart p lies between p and the dart that follows p; the face that passes it is that of p's
// twin, so the corners p and q lie in one face where twin p and twin q do. So vertices and faces are orbits, components are
// the classes that both kinds of steps generate, and a map is plane where V + F = E + 2C. No topology is needed: one
// operation does everything, exchanging what follows two darts. It splits a vertex or merges two, it splits a face or merges
// two, and the four cases of this decide all that is proved here. In every map V + F is at most E + 2C; E + 2C - V - F, which
// is never written as a difference, is called the defect. What keeps the defect carries plane both ways, and what never
// raises it keeps a map plane. At a vertex of a plane map connections don't cross: this takes the place of the Jordan curve
// theorem.
// An edge that was removed stays as two darts, each alone at a vertex of its own; this adds nothing to the defect.
// Each law below is a function without a body, whose contract is the theorem.
//
// The lemmas that are used most, after the name of their module in proofs/:
//   Darts        twin-twin, twin-below, twin-cases, face-permutes, face-exchange: a dart and its twin; faces after an exchange
//   Components   component-next, component-twin, component-least, component-test, component-finer, vertex-component, face-component
//   Steps        split-merge, merge-split, split-split, merge-merge, merge-apart: V, F and C after an exchange, case by case
//   Euler        euler, counts-ext, plane-ext, still-plane: the inequality; maps that agree on all darts
//   Plane        same-defect-plane, same-defect-over, split-plane, corner-cut, corner-keep, taken-out-plane, restricted-plane
//   Parts        parts-plane, parts-vertices, parts-faces, parts-components: a map in two parts
//   Drop         drop-defect, unlink-end-defect, dead-edge-apart, dropped-map: an edge with two faces; a loose end
//   Insert       insert-defect, insert-parts, insert-across: an edge between two corners of one face, or of two
//   InsertPath   path-defect, path-rings, path-across, path-face: a path between two corners of one face
//   Contract     contracted-before, contracted-other, contract-plane, contract-plane-back, contracted-map, contracted-vertex
//   ContractComponents contracted-component: what is connected stays so
//   Smooth       smooth-path, smooth-plane, smooth-plane-back, smoothed-start, smoothed-end, smoothed-other
//   SmoothPaths  smooth-paths, smooth-paths-plane, smooth-paths-plane-back, thin-path-stays: several paths
//   Glue         glue-plane, glued-map: the two-sum; GlueCorners glue-corners-defect
//   Mirror       mirror-counts, mirror-plane
//   Renumber     renumber-plane, renumber-plane-back, paired-count: a map within another
//   FourDarts    four-darts, frozen-here, frozen-elsewhere: the core of noncrossing, at a vertex of four darts
//   Noncrossing  noncrossing, restricted-vertex, restricted-more; LinkNoncrossing link-noncrossing, turn-at
//   Bond         bond-plane, bond-plane-back, involution-count, pairs-involution
//   TurnOver     turned-faces; Flip flip-vertex, flip-faces, flip-component, flip-defect; FlipOne one-faces
//   Rounds       ring-in-order: the order around a vertex, from its ring as a list
#![tactic(auto)]

ghost use Rattle.dart_maps.specs.Laws.{BondIsPlane, ContractionKeepsComponents, ContractionKeepsDefect};
ghost use Rattle.dart_maps.specs.Laws.{ContractionKeepsPlane, CornerCut, DropKeepsDefect, EulersInequality};
ghost use Rattle.dart_maps.specs.Laws.{FlipAloneKeepsAll, FlipAtOneKeepsAll, FlipKeepsComponents, FlipKeepsDefect};
ghost use Rattle.dart_maps.specs.Laws.{FlipKeepsFaces, FlipKeepsVertices, GluingCornersKeepsDefect};
ghost use Rattle.dart_maps.specs.Laws.{GluingKeepsPlane, InsertAcrossFaces, InsertKeepsDefect, InsertPartsFace};
ghost use Rattle.dart_maps.specs.Laws.{MirrorKeepsCounts, MirrorKeepsPlane, NoncrossingAlongEdge};
ghost use Rattle.dart_maps.specs.Laws.{NoncrossingAtVertex, PathKeepsDefect, PathLiesInFace, PathPartsFace};
ghost use Rattle.dart_maps.specs.Laws.{PlaneInParts, RenumberingKeepsPlane, RestrictionIsMap, RestrictionKeepsPlane};
ghost use Rattle.dart_maps.specs.Laws.{RestrictionKeepsVertices, RingTellsOrder, SmoothingAllKeepsPlane};
ghost use Rattle.dart_maps.specs.Laws.{SmoothingKeepsPlane, SplitKeepsPlane};

/// Euler's inequality: in every map of darts, V + F is at most E + 2C.
pub fn eulers_inequality()
    ensures { EulersInequality }
{}

/// The law that a map stays plane when a vertex is split, or when darts or edges are taken out; and that it is plane where its
/// parts are.
pub fn plane_is_inherited()
    ensures split { SplitKeepsPlane }
    ensures restriction { RestrictionKeepsPlane }
    ensures restriction_is_map { RestrictionIsMap }
    ensures restriction_keeps_vertices { RestrictionKeepsVertices }
    ensures in_parts { PlaneInParts }
{}

/// The corner cut: a plane map that is split at two corners of one vertex and one face falls apart there.
pub fn corner_cut()
    ensures { CornerCut }
{}

/// The law on one edge more or less: dropping an edge that lies on two faces, or putting one into a face, keeps the defect;
/// an edge between two faces of one component raises it by two.
pub fn one_edge_more_or_less()
    ensures dropped { DropKeepsDefect }
    ensures inserted { InsertKeepsDefect }
    ensures face_parted { InsertPartsFace }
    ensures across { InsertAcrossFaces }
{}

/// The law on a path put into a face: the defect stays, and the face falls into the two that the path parts.
pub fn path_into_a_face()
    ensures defect { PathKeepsDefect }
    ensures faces { PathPartsFace }
    ensures in_one_face { PathLiesInFace }
{}

/// The law that contracting an edge between two vertices keeps the defect: what comes of it is plane exactly where the map is.
pub fn contraction_is_exact()
    ensures defect { ContractionKeepsDefect }
    ensures plane { ContractionKeepsPlane }
    ensures components { ContractionKeepsComponents }
{}

/// The law that smoothing a path whose inner vertices have two darts each is exact; read backwards, subdividing an edge is.
pub fn smoothing_is_exact()
    ensures one { SmoothingKeepsPlane }
    ensures all { SmoothingAllKeepsPlane }
{}

/// The law that the two-sum of plane maps is plane: two components glued along an edge of each, which is used up; or at two
/// corners of one face each, which keeps the defect.
pub fn two_sum_is_plane()
    ensures along_edges { GluingKeepsPlane }
    ensures at_corners { GluingCornersKeepsDefect }
{}

/// The law that the mirror image of a map has equally many vertices, faces and components, and is plane where the map is.
pub fn mirror_image()
    ensures counts { MirrorKeepsCounts }
    ensures plane { MirrorKeepsPlane }
{}

/// Noncrossing, which takes the place of the Jordan curve theorem: connections that avoid a vertex of a plane map don't alternate
/// around it, and connections that avoid both ends of an edge don't cross along it.
pub fn connections_do_not_cross()
    ensures at_vertex { NoncrossingAtVertex }
    ensures order { RingTellsOrder }
    ensures along_edge { NoncrossingAlongEdge }
{}

/// The law that a map under other numbers, beside edges that are dead, is plane exactly where the map is.
pub fn renumbering_is_exact()
    ensures { RenumberingKeepsPlane }
{}

/// The law that a bond, two vertices with all edges between them, is plane exactly where all its faces are pairs: the order
/// at the one vertex is the opposite of that at the other.
pub fn bond_is_plane()
    ensures { BondIsPlane }
{}

/// The law that turning over a part of a map, which is one run at each of two vertices, or of one, or is made of whole
/// components, keeps the vertices, the components and the number of faces.
pub fn flip_keeps_faces()
    ensures vertices { FlipKeepsVertices }
    ensures components { FlipKeepsComponents }
    ensures faces { FlipKeepsFaces }
    ensures defect { FlipKeepsDefect }
    ensures at_one_vertex { FlipAtOneKeepsAll }
    ensures whole_components { FlipAloneKeepsAll }
{}
