// Rotation systems and the blocks of a graph: theory without code that runs.
//
// A rotation system of a graph has a restriction to each block. Two blocks cross at a vertex if two edges of the one alternate
// with two edges of the other around it. The theorem is that a rotation system is plane, which is V + F = E + 2C, exactly
// where its restriction to each block is plane and no two blocks cross at a vertex. So the plane rotation systems of a graph
// are those of its blocks, nested at the cut vertices. (Whitney 1932: a graph is planar where its blocks are. That the genus
// of a graph is the sum over its blocks is due to Battle, Harary, Kodama and Youngs 1962.)
//
// That no two blocks cross is needed. In proofs/Examples two triangles with one vertex in common alternate around it: each
// triangle is plane (`triangle_plane`), the triangles cross (`crossing_crosses`), and there is one face where three are plane.
//
// A plane rotation system has both properties. Restrictions of plane maps are plane. Of four darts that alternate, the first
// and the third are connected without passing the vertex, and so are the second and the fourth; then all four are, in a plane
// map, and edges at a vertex whose other ends are connected without it lie on a common cycle.
//
// The converse is an induction on the edges of a map whose darts have labels: their blocks. All that is used of blocks is that
// labels are separated at each vertex: a test of edges, with one value at each other vertex, distinguishes a label from all
// others there. Where the label changes at a vertex, take the stretch of darts from the first one with the new label to the
// last one with it. No label occurs both in the stretch and outside, since these would cross. So some test of edges has one
// value on the stretch and the other on the rest of the vertex. The stretch is made a vertex of its own: this separates a
// component into two and keeps the defect E + 2C - V - F. What is left on each side is the restriction of the map to fewer
// edges, in which labels are separated and don't cross. Where no vertex has two labels, the map is that of the labels side by
// side.
//
// The lemmas that are used most (module of proofs/ in front):
//   CommonCycles   joined-block: edges at a vertex whose other ends are connected without it are of one block
//   WithoutVertex  off-after, off-block: connection without a vertex as a relation of darts
//   Separated      IsSeparated: a label distinguished at a vertex; left-twice, left-separated: the same for some of the edges
//   Stretch        stretch, stretch-apart: the stretch, and that it has no label in common with the rest of its vertex
//   Cut            two-sides: the map cut there is plane where both sides are
//   Together       labels-plane: the induction; restricted-ext: restrictions by tests that agree
//   Orders         darts-follow, edges-follow: the order of edges around a vertex, and of darts on a ring of the map
//   NoCrossing     plane-no_crossing: in a plane rotation system no blocks cross
//   OnParts        part-subgraph, plane-on_part, on_part-plane: a rotation system on a part
//   BlockLabels    plane_by_blocks: the theorem
#![tactic(auto)]

ghost use Rattle.block_planes.specs.Laws.{PlaneByBlocks};

/// The law that a rotation system of a graph is plane exactly where its restriction to each block is plane and no two blocks
/// cross at a vertex.
pub fn plane_by_blocks()
    ensures { PlaneByBlocks }
{}
