// What is proved of drawings, as laws.

ghost use Rattle.grid_drawing.specs.Laws.{DrawnIsDrawing};

/// The law that the points of a triangulation of a graph, drawn under its contour, are a straight-line drawing of the graph in
/// which the edges around each vertex have the order of the rotation system.
pub fn triangulations_draw_graphs()
    ensures { DrawnIsDrawing }
{}
