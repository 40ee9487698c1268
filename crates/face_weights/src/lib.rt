// How long a face of a block can be: the weights of the links of its tree, and the greatest weight of a face of a skeleton.
//
// Each item of a skeleton has a weight. An edge of the block weighs one. A link weighs as much as what the node at its other end
// can add to a face that passes there: the weight of the heaviest face of that node's skeleton that has the link back, without the
// link back; of a bond, each two items of which can be neighbors, the weight of the heaviest other item. So a link has a weight of
// its own in each direction, and these equations determine all weights, since the links form a tree. A face of a triconnected
// skeleton, a polygon or a small node is the same in all its plane rotation systems, but for its direction: so one plane rotation
// system of each skeleton is enough.
//
// `weigh` computes the weights by two passes over the tree, from the leaves up and from the root down, and the greatest weight of
// a face. Its contract says that the weights bound the faces (`IsTable` of skeleton_faces): by the law `faces_are_no_longer` of
// that crate, no face of any plane rotation system of the block is longer than the greatest weight. And it says that each weight is
// reached, by a face of the node beyond, and the greatest weight by a face of the node `top` (`AreReached`, `IsTop`), which is what
// a face of this length is made from. Whether the block has one is not said here.
//
// What a node adds to its item is a rest (`IsRest`). Weights are sums over groups of edges, at most two for each edge of a group,
// so none is above twice the number of edges. Nothing recurses; all is linear, and what is computed of one node is put into lists that
// all nodes share. Only running out of memory is an error.
//
// The lemmas (module of proofs/ in front):
//   Numbering    upto-more, orbits-more, steps-tell: orbits numbered along their steps, and that the numbers tell the faces
//   Totals       total-face: the weights of the darts that have one number are the weight of a face
//   FaceBounds   face-twice, face-other: how heavy a face is, and that an edge on two faces adds its weight once
//   LinkFaces    link-faces: the darts of a link lie on two faces
//   RestLemmas   rest-once, rest-other, rest-light: there is one rest, it does not depend on the item, and it is small
//   GroupSizes   rest-group: no rest at a link is more than twice the size of the group of the link back
//   InOrder      child-parent, child-after, parent-one: links in an order with each node after its parent
//   UpSteps      below-more, light-more; DownSteps: light-down, done-greater, done-less: one node more in each pass
//   Weighed      weighed: after both passes the weights are as promised
//   Terms, Steps sums over numbers, and the steps of the loops
#![tactic(auto)]

mod numbers;
mod rests;
mod sums;
mod table;
mod weighing;

pub use numbers::number_faces;
pub use sums::face_sums;
pub use table::Weights;
pub use weighing::weigh;
