// Vertices and edges of a part, appended to a text in the numbers of the whole graph.
ghost use Rattle.std.specs.Prelude.{◌≡◌, ◌<◌, ◌++◌, map, slice_index, OnOk, All};
ghost use Rattle.multigraph.specs.Graph.{edge_count};
ghost use Rattle.spqr_script.specs.Text.{spaced_numbers};

use decimals::{push_number, push_word};
use multigraph::Part;
use std::alloc::AllocError;

// Appends the vertices, each with a space before it to a text.
pub(crate) fn push_vertices(
    out: &mut Vec<u8>,
    part: &Part,
    vertices: &[u32],
) -> Result<(), AllocError>
    requires { All (λ v. v < part.now.graph.vertex_count) vertices.now }
    ensures { OnOk result
        (out.new.items ≡ out.old.items
        ++ spaced_numbers (map (slice_index part.now.vertices) vertices.now)) }
{
    for v in vertices {
        push_word(out, b" ")?;
        push_number(out, u128::from(part.vertex(*v)))?;
    }
    Ok(())
}

// Appends the edges, each with a space before it to a text.
pub(crate) fn push_edges(out: &mut Vec<u8>, part: &Part, edges: &[u32]) -> Result<(), AllocError>
    requires { All (λ e. e < edge_count part.now.graph) edges.now }
    ensures { OnOk result
        (out.new.items ≡ out.old.items
        ++ spaced_numbers (map (slice_index part.now.edges) edges.now)) }
{
    for e in edges {
        push_word(out, b" ")?;
        push_number(out, u128::from(part.edge(*e)))?;
    }
    Ok(())
}
