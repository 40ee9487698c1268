// Faces of a block and of the skeletons of its nodes: theory without code that runs.
//
// A rotation system of a block follows a family of rotation systems of the skeletons: its map is what comes of gluing the maps
// of the skeletons along the links of the tree (skeleton_planes). One gluing, of the edges of d and e, makes one face of the
// faces of d and of e's twin, without these two darts, and one of the faces of d's twin and of e; all other faces stay. So the
// faces of the block are put together from faces of the skeletons, and their lengths from sums over these.
//
// Each item of a skeleton has a weight, an edge of the block one. If at first no face of a dart of a link weighs more than the
// link and the link back, gluing adds to no face: the two faces that become one have at most the weight of the two darts that
// go, each. So no face of the block is longer than the heaviest face of the skeletons (`faces_are_no_longer`). That bounds the
// faces of every plane rotation system: a triconnected skeleton has two, with the same faces, a polygon and a small node one, and
// in a bond each face is a pair of items.
//
// That a face as long as that exists is shown by faces of the skeletons that fit together: where of the two items of a link
// opposite darts are chosen, gluing makes one face of the chosen ones, and it loses the weight of the link and the link back. So
// where each chosen face but one weighs as much as the link towards that one and the link back, the length of the face that
// comes of all is the weight of the one (`faces_fit_together`).
//
// The lemmas (module of proofs/ in front):
//   FaceSums     face_sum: the sum of weights over a face; sum_of-two: a sum over two tests, with a number left out of each
//   JoinedFaces  either-kept, either-together, other-before, other-after: the faces after one gluing
//   Falling      sums-fall: sums over faces after many gluings; stay-two: an edge stays on two faces
//   Meeting      meet: faces of parts that are joined along links become one; left-weight: what it weighs
//   Reached      used-joined, sum-united; Fitted: some-face: faces that fit together
//   TwoFaces     two-faces: an edge of a plane map that is no bridge lies on two faces
//   BlockFaces   numbered-face, face-at_most, face-at_least: the faces of the block are those of the glued map
//   EachFamily   mirror-weight, bond-weight: the faces of the skeletons in all their plane rotation systems
//   NoLonger     no-longer_than: the laws
//   InSkeletons  skeleton-inside, skeleton-sum: the faces of the skeletons in the map of them all
#![tactic(auto)]

ghost use Rattle.skeleton_faces.specs.Laws.{FacesAreNoLonger, FacesFitTogether, NoSystemHasLonger};

/// The law that no face of a plane rotation system of a block is longer than the heaviest face of its skeletons, where edges
/// weigh one and the links so much that no face of a dart of a link weighs more than the link and the link back; and that this
/// bounds the faces of every plane rotation system of the block where it does for one, with bonds bounded by pairs of items.
pub fn faces_are_no_longer()
    ensures following { FacesAreNoLonger }
    ensures every { NoSystemHasLonger }
{}

/// The law that faces of the skeletons, one in each of some nodes that are joined by links, are one face of the block where
/// opposite darts of the two items of each link are chosen: a face as long at least as the face of one of these nodes weighs,
/// the top, if each other node's weighs as much as the link that leads towards it and the link back.
pub fn faces_fit_together()
    ensures { FacesFitTogether }
{}
