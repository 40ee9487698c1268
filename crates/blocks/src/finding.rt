// The numbers of blocks and components, from a search forest and its low vertices.
ghost use Rattle.std.specs.Prelude.{◌≡◌, ◌<◌, ℕ, true, false, map, length, IfOk, slice_index};
ghost use Rattle.multigraph.specs.Graph.{IsGraph};
ghost use Rattle.search_forest.specs.Searching.{IsOver};
ghost use Rattle.search_forest.specs.Low.{AreLowVertices};
ghost use Rattle.blocks.specs.Spread.{IsSpreadOrder, IsSpread};
ghost use Rattle.blocks.specs.Finding.{IsHead, IsNoHead, AreHeads, AreRoots, AreBlockNumbers};
ghost use Rattle.blocks.specs.Blocks.{AreComponents};

use crate::numbering::number_classes;
use crate::spread::{labels_at, spread};
use multigraph::Graph;
use search_forest::{Forest, Low};
use std::alloc::{AllocError, Global};

// Whether the vertex is a root, or nothing leads from it or below it past its parent.
fn is_head(search: &Forest, low: &Low, vertex: u32) -> bool
    requires depth_within { vertex < length search.now.depth }
    requires parent_within { vertex < length search.now.parent }
    requires low_within { vertex < length low.now.first }
    requires reached_within { slice_index low.now.first vertex < length search.now.depth }
    requires grandparent_within { 0 < slice_index search.now.depth vertex
        → slice_index search.now.parent vertex < length search.now.depth }
    ensures head { result ≡ true → IsHead search.now low.now vertex }
    ensures other { result ≡ false → IsNoHead search.now low.now vertex }
{
    if search.depth_of(vertex) == 0 {
        return true;
    }
    search.depth_of(search.parent_of(vertex)) <= search.depth_of(low.first_of(vertex))
}

// The marks of the vertices past whose parent nothing leads, and of the roots.
fn heads(alloc: Global, graph: &Graph, search: &Forest, low: &Low) -> Result<Vec<bool>, AllocError>
    requires graph { IsGraph graph.now }
    requires over { IsOver graph.now search.now }
    requires low { AreLowVertices graph.now search.now low.now }
    ensures { IfOk result
        (λ heads. AreHeads search.now low.now graph.now.vertex_count heads.items) }
{
    let mut heads = Vec::with_capacity(alloc, graph.vertex_count() as usize)?;
    for vertex in 0..graph.vertex_count() {
        heads.push(is_head(search, low, vertex))?;
    }
    Ok(heads)
}

// Whether the vertex is a root.
fn is_root(search: &Forest, vertex: u32) -> bool
    requires { vertex < length search.now.depth }
    ensures root { result ≡ true → slice_index search.now.depth vertex ≡ 0 }
    ensures other { result ≡ false → 0 < slice_index search.now.depth vertex }
{
    search.depth_of(vertex) == 0
}

// The marks of the roots.
fn roots(alloc: Global, graph: &Graph, search: &Forest) -> Result<Vec<bool>, AllocError>
    requires { IsOver graph.now search.now }
    ensures { IfOk result (λ roots. AreRoots search.now graph.now.vertex_count roots.items) }
{
    let mut roots = Vec::with_capacity(alloc, graph.vertex_count() as usize)?;
    for vertex in 0..graph.vertex_count() {
        roots.push(is_root(search, vertex))?;
    }
    Ok(roots)
}

// The label of each vertex: itself where it has a mark, else the label of its parent.
fn labels(alloc: Global, search: &Forest, own: &[bool]) -> Result<Vec<u32>, AllocError>
    requires order { IsSpreadOrder
        (length search.now.parent) search.now.parent own.now search.now.order }
    ensures labels { IfOk result
        (λ label. IsSpread search.now.parent own.now search.now.order label.items) }
    ensures places { IfOk result (λ label. length label.items ≡ length search.now.parent) }
{
    spread(alloc, search.parents(), own, search.order())
}

// The label of the lower end of each edge.
fn edge_labels(alloc: Global, search: &Forest, label: &[u32]) -> Result<Vec<u32>, AllocError>
    requires { (e : ℕ) → e < length search.now.lower → slice_index search.now.lower e
        < length label.now }
    ensures { IfOk result (λ labels. labels.items ≡ map
        (slice_index label.now) search.now.lower) }
{
    labels_at(alloc, search.lower_ends(), label)
}

// The number of the block of each edge, blocks in order of their least edges, and how many blocks there are.
pub(crate) fn number_blocks(
    alloc: Global,
    graph: &Graph,
    search: &Forest,
    low: &Low,
) -> Result<(Vec<u32>, u32), AllocError>
    requires graph { IsGraph graph.now }
    requires over { IsOver graph.now search.now }
    requires low { AreLowVertices graph.now search.now low.now }
    ensures { IfOk result (λ r. AreBlockNumbers graph.now r.0.items r.1) }
{
    let heads = heads(alloc, graph, search, low)?;
    let label = labels(alloc, search, &heads)?;
    let labels = edge_labels(alloc, search, &label)?;
    let numbered = number_classes(alloc, &labels, graph.vertex_count() as usize)?;
    Ok(numbered)
}

// The number of the component of each vertex, components in order of their least vertices, and how many there are.
pub(crate) fn number_components(
    alloc: Global,
    graph: &Graph,
    search: &Forest,
) -> Result<(Vec<u32>, u32), AllocError>
    requires graph { IsGraph graph.now }
    requires over { IsOver graph.now search.now }
    ensures { IfOk result (λ r. AreComponents graph.now r.0.items r.1) }
{
    let roots = roots(alloc, graph, search)?;
    let label = labels(alloc, search, &roots)?;
    let numbered = number_classes(alloc, &label, graph.vertex_count() as usize)?;
    Ok(numbered)
}
