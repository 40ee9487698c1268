// The numbers that are drawn, and what they pick.
ghost use Rattle.std.specs.Prelude.{◌≡◌, ◌<◌};
ghost use Rattle.made_graph.specs.Made.{drawn, edge_drawn, operation_drawn};

// The number that is drawn after x.
pub(crate) fn drawn(x: u64) -> u64
    ensures { result ≡ drawn x }
{
    x.wrapping_mul(6_364_136_223_846_793_005)
        .wrapping_add(1_442_695_040_888_963_407)
}

// The edge that a drawn number picks, of `edges` many.
pub(crate) fn edge_drawn(x: u64, edges: u32) -> u32
    requires { 0 < edges }
    ensures picked { result ≡ edge_drawn x edges }
    ensures edge { result < edges }
{
    ((x >> 32) % u64::from(edges)) as u32
}

// The operation that a drawn number picks.
pub(crate) fn operation_drawn(x: u64) -> u64
    ensures { result ≡ operation_drawn x }
{
    x >> 62
}
