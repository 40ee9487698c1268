// Faces of rotation systems, and Euler's sum.
//
// Each edge of a multigraph has two darts, one from each end. A rotation system joins the darts into faces: from a vertex
// along an edge to its other end, and on by the edge that follows there. With V vertices, E edges, F faces, an isolated
// vertex counting one, and C components, V - E + F is at most 2C (Euler 1758, Heffter 1891), and the rotation system is
// plane where it is 2C.
//
// `euler` counts the four numbers and says whether the rotation system is plane. `face_steps` has for each dart the next one of
// its face, and `trace` lists the faces, each from its least pair of a vertex and an edge on. All take linear time, with vectors of
// their own and no recursion: they walk along each face once and mark what they pass, and search each component once. Their
// contracts are exact; only running out of memory has no cause in a clause. Darts as numbers are at home in multigraph.
#![tactic(auto)]

mod components;
mod counting;
mod darts;
mod laws;
mod lists;
mod numbers;
mod orbits;
mod steps;
mod tracing;

pub use counting::euler;
pub use laws::{
    eulers_inequality, faces_are_orbits, faces_of_block_are_simple, maps_are_rotation_systems,
    mirror_image, restriction_keeps_plane, rotation_system_is_map,
};
pub use lists::Faces;
pub use multigraph::{dart_count, dart_from, head, tail, twin};
pub use numbers::Euler;
pub use steps::face_steps;
pub use tracing::trace;
