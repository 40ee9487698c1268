// Turns, directions and segments, tested exactly.

ghost use Rattle.std.specs.Prelude.{◌≡◌, ◌*◌};
ghost use Rattle.plane_points.specs.Turning as turning;
ghost use Rattle.plane_points.specs.Segments as segments;

// The product, which is below 2^64.
fn product(x: u32, y: u32) -> u128
    ensures { result ≡ x * y }
{
    u128::from(x) * u128::from(y)
}

// Whether c lies to the left of the way from a to b.
fn turns_left(a: (u32, u32), b: (u32, u32), c: (u32, u32)) -> bool
    ensures { result ≡ turning.turns_left a b c }
{
    product(a.0, c.1) + product(b.0, a.1) + product(c.0, b.1)
        < product(a.0, b.1) + product(b.0, c.1) + product(c.0, a.1)
}

// Whether p is above c, or at the same height to the right.
fn is_upper(c: (u32, u32), p: (u32, u32)) -> bool
    ensures { result ≡ turning.is_upper c p }
{
    c.1 < p.1 || (c.1 == p.1 && c.0 < p.0)
}

// Whether p comes before q counterclockwise around c, from the direction to the right on.
pub(crate) fn comes_before(c: (u32, u32), p: (u32, u32), q: (u32, u32)) -> bool
    ensures { result ≡ turning.comes_before c p q }
{
    if is_upper(c, p) {
        !is_upper(c, q) || turns_left(c, p, q)
    } else {
        !is_upper(c, q) && turns_left(c, p, q)
    }
}

// Whether a and b are less than c and d.
fn both_less(a: u32, b: u32, c: u32, d: u32) -> bool
    ensures { result ≡ segments.both_less a b c d }
{
    a < c && (a < d && (b < c && b < d))
}

// Whether the boxes around the segments from a to b and from c to d have no point in common.
fn boxes_apart(a: (u32, u32), b: (u32, u32), c: (u32, u32), d: (u32, u32)) -> bool
    ensures { result ≡ segments.boxes_apart a b c d }
{
    both_less(a.0, b.0, c.0, d.0)
        || (both_less(c.0, d.0, a.0, b.0)
            || (both_less(a.1, b.1, c.1, d.1) || both_less(c.1, d.1, a.1, b.1)))
}

// Whether c and d are on one side of the line through a and b, and not on it.
fn are_beside(a: (u32, u32), b: (u32, u32), c: (u32, u32), d: (u32, u32)) -> bool
    ensures { result ≡ segments.are_beside a b c d }
{
    (turns_left(a, b, c) && turns_left(a, b, d)) || (turns_left(b, a, c) && turns_left(b, a, d))
}

// Whether the segments from a to b and from c to d have no point in common (Shamos and Hoey 1976).
pub(crate) fn are_apart(a: (u32, u32), b: (u32, u32), c: (u32, u32), d: (u32, u32)) -> bool
    ensures { result ≡ segments.are_apart a b c d }
{
    boxes_apart(a, b, c, d) || (are_beside(a, b, c, d) || are_beside(c, d, a, b))
}

// Whether a, b and p lie on one line.
fn in_line(a: (u32, u32), b: (u32, u32), p: (u32, u32)) -> bool
    ensures { result ≡ segments.in_line a b p }
{
    !turns_left(a, b, p) && !turns_left(b, a, p)
}

// Whether p is between a and b, or one of them.
fn in_range(a: u32, b: u32, p: u32) -> bool
    ensures { result ≡ segments.in_range a b p }
{
    !(p < a && p < b) && !(a < p && b < p)
}

// Whether p is a point of the segment from a to b.
pub(crate) fn is_on(a: (u32, u32), b: (u32, u32), p: (u32, u32)) -> bool
    ensures { result ≡ segments.is_on a b p }
{
    in_line(a, b, p) && (in_range(a.0, b.0, p.0) && in_range(a.1, b.1, p.1))
}

// Whether z is between p and q.
fn on_two_sides(z: u32, p: u32, q: u32) -> bool
    ensures { result ≡ segments.on_two_sides z p q }
{
    (p < z && z < q) || (q < z && z < p)
}

// Whether p and q lie in one direction from z.
pub(crate) fn same_way(z: (u32, u32), p: (u32, u32), q: (u32, u32)) -> bool
    ensures { result ≡ segments.same_way z p q }
{
    in_line(z, p, q) && (!on_two_sides(z.0, p.0, q.0) && !on_two_sides(z.1, p.1, q.1))
}
