// The longest face of all plane rotation systems of a block.
//
// The length of a face is its number of pairs of a vertex and an edge. The items of the tree's nodes have weights: an edge one, a link as
// much as the heaviest face of the node beyond it that has the link back, without the link back. They bound the faces of every
// plane rotation system (skeleton_faces). The bound is reached (Gutwenger and Mutzel 2003 find such an embedding): a node, the top, has
// a face of the greatest weight. Where a dart of a link is on a wanted face, the face of the opposite dart of the link back is wanted
// beyond the link, on its heavier side: a triconnected node is turned for it or not, in a bond the heaviest other item is put
// next to the link. So wanted faces fit together, and the block has a face as long as the top's weighs in the plane
// rotation system with these choices and the present ones elsewhere.
//
// `longest` gives the greatest length and the moves. It numbers the faces of the skeletons by their darts: those of a bond by its kept choice,
// those of a polygon by its items, two of which meet at each vertex, and those of other nodes, where there are any, by what follows their
// items in the present rotation system (`followers_by_steps` of skel_decompose). The face steps of the block tell this, and whether a longest
// face is there already. With the weights (face_weights) it walks over the nodes from the top, each after its
// parent, and compares no rotation systems: no copy of the block is made, and no ring is moved. Where a face of a node is wanted, the
// weights of a bond are listed, and those of the faces of a triconnected node. The laws are its three parts: weights bound the faces of a
// block, wanted faces are reached, and a walk from the top leads to a longest face.
//
// The lemmas (module of proofs/ in front):
//   Lengths    listed-dart, dart-listed: the faces that are listed are those of the darts
//   Chosen     demands: faces chosen by one dart each fit together; link-two: the two darts of a link are on two faces
//   Bonds      bond-next, bond-face, bond-sum: the faces of a bond by its choice; Possible: choices that are possible
//   BondNumbers written-more, bond-known: numbers of these faces; PolygonSteps leaves-first, leaves-second: steps in a polygon
//   Reached    reached: wanted faces are faces of some plane rotation system; Greatest table-bounds, wanted-reached
//   FromTop    are-wanted: each node wants what its parent asks for; Best best-below: the heaviest face weighs enough
//   FaceLengths has-found, has-none: whether a face has a length; Asked one-side; Walked, Steps: the walk from the top; RowsMade known-ready; Final
#![tactic(auto)]

mod bond_faces;
mod exchanged;
mod finding;
mod joining;
mod laws;
mod links;
mod moving;
mod numbers;
mod polygons;
mod present;
mod rows;
mod walking;
mod wanting;
mod wants;

pub use finding::{LongestFace, longest};
pub use laws::{walk_leads_to_longest, wanted_faces_are_reached, weights_bound_faces};
pub use wants::Want;
