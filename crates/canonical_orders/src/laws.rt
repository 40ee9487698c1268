//! What is proved of contours, as laws.

ghost use Rattle.canonical_orders.specs.Laws.{ContourIsAround, LastContourIsBase, RemovalIsStacked, RemovalKeepsContours, TriangleIsContour};

/// The law that around a vertex of a contour the darts that stay go from the dart to the left neighbour to the one to the right.
pub fn contours_go_around()
    ensures { ContourIsAround }
{}

/// The law that the first contour is the triangle of the base, and the last one the base and its twin.
pub fn contours_begin_and_end()
    ensures first { TriangleIsContour }
    ensures last { LastContourIsBase }
{}

/// The law that the removal of a free vertex leaves a contour.
pub fn removals_keep_contours()
    ensures { RemovalKeepsContours }
{}

/// The law that a removed vertex is stacked on the contour after its removal.
pub fn removals_stack()
    ensures { RemovalIsStacked }
{}
