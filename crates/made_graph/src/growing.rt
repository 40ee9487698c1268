// The operations on an edge: each appends edges, and returns how many vertices there are then. They fail only if memory runs out.
ghost use Rattle.std.specs.Prelude.{◌≡◌, ◌<◌, ◌+◌, ◌^◌, length, IfOk};
ghost use Rattle.multigraph.specs.Build.{multigraph_of};
ghost use Rattle.made_graph.specs.Made.{subdivided, doubled, with_path, with_tetrahedron, grown};

use std::alloc::AllocError;

// Edge e subdivided.
fn subdivide(ends: &mut Vec<(u32, u32)>, vertices: u32, e: u32) -> Result<u32, AllocError>
    requires edge { e < length ends.old.items }
    requires few { vertices + 2 < 2 ^ 32 }
    ensures { IfOk result (λ n. multigraph_of n ends.new.items
        ≡ subdivided (multigraph_of vertices ends.old.items) e) }
{
    let (first, second) = ends[e as usize];
    ends[e as usize] = (first, vertices);
    ends.push((vertices, second))?;
    Ok(vertices + 1)
}

// Edge e doubled.
fn double(ends: &mut Vec<(u32, u32)>, vertices: u32, e: u32) -> Result<u32, AllocError>
    requires edge { e < length ends.old.items }
    ensures { IfOk result (λ n. multigraph_of n ends.new.items
        ≡ doubled (multigraph_of vertices ends.old.items) e) }
{
    let link = ends[e as usize];
    ends.push(link)?;
    Ok(vertices)
}

// A path beside edge e.
fn add_path(ends: &mut Vec<(u32, u32)>, vertices: u32, e: u32) -> Result<u32, AllocError>
    requires edge { e < length ends.old.items }
    requires few { vertices + 2 < 2 ^ 32 }
    ensures { IfOk result (λ n. multigraph_of n ends.new.items
        ≡ with_path (multigraph_of vertices ends.old.items) e) }
{
    let (first, second) = ends[e as usize];
    ends.push((first, vertices))?;
    ends.push((vertices, second))?;
    Ok(vertices + 1)
}

// A complete graph on four vertices glued on at edge e.
fn glue(ends: &mut Vec<(u32, u32)>, vertices: u32, e: u32) -> Result<u32, AllocError>
    requires edge { e < length ends.old.items }
    requires few { vertices + 2 < 2 ^ 32 }
    ensures { IfOk result (λ n. multigraph_of n ends.new.items
        ≡ with_tetrahedron (multigraph_of vertices ends.old.items) e) }
{
    let (first, second) = ends[e as usize];
    ends.push((first, vertices))?;
    ends.push((first, vertices + 1))?;
    ends.push((second, vertices))?;
    ends.push((second, vertices + 1))?;
    ends.push((vertices, vertices + 1))?;
    Ok(vertices + 2)
}

// Edge e grown by this operation.
pub(crate) fn grow(
    ends: &mut Vec<(u32, u32)>,
    vertices: u32,
    e: u32,
    operation: u64,
) -> Result<u32, AllocError>
    requires edge { e < length ends.old.items }
    requires few { vertices + 2 < 2 ^ 32 }
    ensures { IfOk result (λ n. multigraph_of n ends.new.items
        ≡ grown (multigraph_of vertices ends.old.items) e operation) }
{
    match operation {
        0 => subdivide(ends, vertices, e),
        1 => double(ends, vertices, e),
        2 => add_path(ends, vertices, e),
        _ => glue(ends, vertices, e),
    }
}
