// Points of the plane with whole coordinates: turns, the order of directions around a point, segments: theory without code that
// runs.
//
// Three points a, b, c make a turn to the left where twice the area of their triangle, with its sign, is above 0. Here it is the
// difference of two sums of products, so that nothing is divided, no number is below 0, and what is computed is exact. For four
// points, the turns around one of them weighted by the heights of the others add up to nothing (an identity of Grassmann and
// Plücker): from it follows that directions within half a turn are ordered by turns to the left, and all directions by their
// half and then by turns. A list of points goes counterclockwise around a point where this order has it so, from some member on:
// that is where all members but at most one come before the next one.
//
// A point of a segment has two weights, whole numbers that are not both 0, and is given times their sum. Two segments have a
// point in common exactly where neither the boxes around them are apart nor the one segment is on one side of the line of the
// other (Shamos and Hoey 1976 have the test by turns). Two segments from one point have another one in common exactly where
// they lie in one direction.
//
// The lemmas (module of proofs/ in front):
//   Turns       one-side, other-side: two turns make a third; heights, widths: the identity
//   Directions  comes-trans, comes-once: the order; turns-around: two turns to the left of three directions
//   Rising      lists each of whose members is related to all later ones
//   Cyclic      counter-part, counter-more: a part of a counterclockwise list, and one more point at its end
//   Falls       falls-tell: how often such a list falls back
//   Segments    meet-apart, near-meet; Rays: on-weighted, rays-apart, rays-meet
#![tactic(auto)]

ghost use Rattle.plane_points.specs.Laws.{DirectionsAreOrdered, FallsTell, OneMoreGoesAround, PartsGoAround};
ghost use Rattle.plane_points.specs.Laws.{PointsOfSegments, RaysAreApart, RaysMeet, SegmentsMeet};

/// The laws that directions around a point are ordered counterclockwise, from the direction to the right on, and that a list of
/// points goes counterclockwise exactly where at most one member does not come before the next one.
pub fn directions_are_ordered()
    ensures order { DirectionsAreOrdered }
    ensures falls { FallsTell }
{}

/// The laws that a part of a list that goes counterclockwise does so too, and the list with one more point at its end where two
/// of the three turns between the last point, the new one and the first are to the left.
pub fn lists_go_around()
    ensures part { PartsGoAround }
    ensures more { OneMoreGoesAround }
{}

/// The laws that two segments have a point in common exactly where they are not apart, and that a point is one of a segment
/// exactly where it is on its line and within its box (Shamos and Hoey 1976).
pub fn segments_meet()
    ensures meet { SegmentsMeet }
    ensures point { PointsOfSegments }
{}

/// The laws that two segments from one point have another point in common exactly where they lie in one direction.
pub fn rays_meet()
    ensures apart { RaysAreApart }
    ensures meet { RaysMeet }
{}
