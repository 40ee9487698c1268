// Certificates of blocks: a subdivision of K5 or K3,3 in the skeleton of a node of a block's tree, carried into the block.
//
// A skeleton represents its block: each of its edges, the items of the node, is an edge of the block or a link, a virtual edge,
// which represents the edges on its far side (Tutte 1966). These edges, the group of the item, have a path between the item's
// ends, and two groups share no vertices but common ends of their items. So a subdivision in the skeleton becomes one in the
// block when each of its edges is replaced by such a path, its route. `item_routes` finds the routes of a node, and
// `obstruct_block` carries a subdivision over along them, by `kuratowski::lift`.
//
// The groups of all items are found in one pass: a search from the node through the links of the tree finds for each other node
// the item that leads there. A route is a path along the edges of a group, found by `graph_paths::path_along`. Nothing recurses.
//
// The lemmas that are used most (preceded by their module of proofs/):
//   TowardsNodes   reached-next, reached-all: the search through the links
//   GroupsOfEdges  far-right, noted-all: the groups of the edges
//   ItemRoutes     group-path, route-right, item-routes: the paths through the groups are routes
#![tactic(auto)]

mod groups;
mod obstructing;
mod towards;

pub use kuratowski::lift;
pub use obstructing::{item_routes, obstruct_block};
