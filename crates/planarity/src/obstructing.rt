// How subdivisions of K5 and K3,3 arise when an edge is contracted: the laws.

ghost use Rattle.planarity.specs.ObstructionLaws.{AlternatingNeighboursObstruct, CommonNeighboursObstruct, NeighboursOnCircle, SubdivisionIsLifted};

/// The law that a subdivision in the graph with an edge contracted is lifted to one in the graph. Where two of the four paths
/// at a branch vertex of K5 begin at either end of the edge, it becomes a subdivision of K3,3.
pub fn subdivisions_are_lifted()
    ensures lifted { SubdivisionIsLifted }
{}

/// The law that in a plane rotation system of a triconnected graph the neighbours of each vertex lie on a cycle that avoids it:
/// when the vertex is taken away, the faces at it become one, which passes no vertex twice.
pub fn neighbours_lie_on_a_circle()
    ensures circle { NeighboursOnCircle }
{}

/// The law that the circle around the merged vertex and the edges at the two ends of the contracted edge hold a subdivision of
/// K5 where the ends have three neighbours in common, and one of K3,3 where their neighbours alternate.
pub fn neighbours_on_the_circle_obstruct()
    ensures common { CommonNeighboursObstruct }
    ensures alternating { AlternatingNeighboursObstruct }
{}
