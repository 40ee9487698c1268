// What becomes of a plane rotation system when an edge is contracted, and how it is recovered: the laws.

ghost use Rattle.planarity.specs.ContractionLaws.{CommonNeighboursTwo, ContractedSystemExists, ContractedSystemPlane, ContractedSystemTells, ContractedSystemUnique, RunsExpand, TriangleFaceOnce, TriangleIsFace};

/// The law that a triangle of a plane rotation system is a face, if the graph stays connected without its vertices: with two
/// of its edges contracted the third is a loop, and no connection passes from its one side to the other.
pub fn triangles_are_faces()
    ensures face { TriangleIsFace }
    ensures once { TriangleFaceOnce }
{}

/// The law that each rotation system makes one of the graph with an edge contracted, which is plane where it is.
pub fn rotation_systems_are_contracted()
    ensures exists { ContractedSystemExists }
    ensures unique { ContractedSystemUnique }
    ensures plane { ContractedSystemPlane }
{}

/// The law that a plane rotation system of a triconnected graph is determined by what it makes of the graph with an edge
/// contracted; and that one of the contracted graph is made by a plane one where it has two runs around the merged vertex.
pub fn plane_rotation_systems_are_expanded()
    ensures common { CommonNeighboursTwo }
    ensures told { ContractedSystemTells }
    ensures expands { RunsExpand }
{}
