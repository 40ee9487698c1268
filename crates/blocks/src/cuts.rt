// Cut vertices, by the numbers of the blocks of their edges.
ghost use Rattle.std.specs.Prelude.{◌≡◌, ◌∷◌, ◌++◌, ◌<◌, [], ℕ, filter, length, if◌then◌else◌, IfOk, slice_index};
ghost use Rattle.multigraph.specs.Graph.{numbers_below, edge_count, incident_edges};
ghost use Rattle.blocks.specs.Cuts.{meets_two};

use multigraph::Graph;
use std::alloc::{AllocError, Global};

// Whether the edges have two different numbers.
fn meets_two(edges: &[u32], numbers: &[u32]) -> bool
    requires { (k : ℕ) → k < length edges.now → slice_index edges.now k < length numbers.now }
    ensures { result ≡ meets_two numbers.now edges.now }
{
    for edge in edges {
        if numbers[*edge as usize] != numbers[edges[0] as usize] {
            return true;
        }
    }
    false
}

// Appends the vertex if it is a cut vertex.
fn note(cut: &mut Vec<u32>, vertex: u32, is_cut: bool) -> Result<(), AllocError>
    ensures { IfOk result (λ _. cut.new.items ≡ (if is_cut then cut.old.items ++ vertex ∷ []
        else cut.old.items)) }
{
    if is_cut {
        cut.push(vertex)?;
    }
    Ok(())
}

// The vertices with edges of two different numbers, in increasing order.
pub(crate) fn cut_vertices(
    alloc: Global,
    graph: &Graph,
    numbers: &[u32],
) -> Result<Vec<u32>, AllocError>
    requires { length numbers.now ≡ edge_count graph.now }
    ensures { IfOk result (λ cut. cut.items ≡ filter (λ v. meets_two numbers.now
        (incident_edges graph.now v)) (numbers_below graph.now.vertex_count)) }
{
    let mut cut = Vec::new(alloc);
    for vertex in 0..graph.vertex_count() {
        let is_cut = meets_two(graph.incident(vertex), numbers);
        note(&mut cut, vertex, is_cut)?;
    }
    Ok(cut)
}
