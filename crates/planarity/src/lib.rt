// Which graphs have a plane rotation system: the laws.
//
// A graph with a subdivision of K5 or K3,3 has no plane rotation system (Kuratowski 1930). A triconnected graph has a plane
// rotation system or such a subdivision, and its plane rotation systems are one and its mirror image (Whitney 1932).
#![tactic(auto)]

mod contracting;
mod embedder;
mod obstructing;

ghost use Rattle.planarity.specs.Laws.{MirrorIsAnother, PlaneOrSubdivision, SubdivisionExcludesPlane, TwoPlaneSystems};

pub use contracting::{
    plane_rotation_systems_are_expanded, rotation_systems_are_contracted, triangles_are_faces,
};
pub use embedder::{Embedded, Embedder};
pub use obstructing::{
    neighbours_lie_on_a_circle, neighbours_on_the_circle_obstruct, subdivisions_are_lifted,
};

/// The law that a graph with a subdivision of K5 or K3,3 has no plane rotation system. On the edges of the subdivision alone
/// it would have at least seven faces, each of which runs along three of the twenty ways from branch vertex to branch vertex;
/// or five, each along four of eighteen.
pub fn subdivision_excludes_plane()
    ensures { SubdivisionExcludesPlane }
{}

/// The law that a triconnected graph has two plane rotation systems, mirror images of each other, or none (Whitney 1932). By
/// induction: contracting an edge distinguishes plane rotation systems, and with four vertices there are sixteen to examine.
pub fn triconnected_graphs_have_two()
    ensures two { TwoPlaneSystems }
    ensures mirror { MirrorIsAnother }
{}

/// The law that a triconnected graph has a plane rotation system, or a subdivision of K5 or K3,3 (Kuratowski 1930). By
/// induction, after Thomassen (1980): an edge is contracted; a plane rotation system of what is left expands, or the circle
/// around the merged vertex closes a subdivision; and a subdivision of what is left is lifted.
pub fn triconnected_graphs_are_plane_or_obstructed()
    ensures { PlaneOrSubdivision }
{}
