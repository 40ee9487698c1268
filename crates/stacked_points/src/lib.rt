// Points stacked on a contour, as the shift method of drawing needs them: theory without code that runs.
//
// A contour is a list of points from left to right, with an edge from each to the next one. The shift method (de Fraysseix, Pach
// and Pollack 1990) keeps a drawing whose edges are all under the contour, and stacks one point v after the other on a stretch
// of it: v lies between the ends of the stretch, above all its points and over all its edges, and new segments lead from v to
// all its points. The new contour has v in the place of the inner points of the stretch.
//
// Why nothing crosses: the points of the stretch lie below v, so turns around v are transitive, and each two of them make one
// (the fan). A point of a new segment, other than its lower end w, is over each edge of the stretch that spans it: for the edges
// at w since v is over them, and for those farther away since the fan puts w on their other side. So it is not under the old
// contour, and meets an old segment at most in w. What is above a new edge of the contour would be over the old one by the same
// two turns. So all that was under the contour stays under it. Around each old point of the contour the new segment comes between
// the right neighbour and the left one, as two of three turns are to the left, which is what plane_points::lists_go_around asks.
//
// Points of segments have weights, so q gives a point k times: it is over the edge from a to b where q lies to the left of the
// way from k times a to k times b.
//
// The lemmas (module of proofs/ in front):
//   Thirds    right-third, left-third: two turns make a third, all points on one side; near-, far-right and -left: over an edge
//   Overs     new-, old-right and -left: the same k-fold, of a point of a new segment, and of one over a new edge
//   Chains    lists whose members are related to the next ones
//   Stacking  fan: around v; overs, no-span, meets: new segments and the old contour; Under  old, new: under the new contour
//   Corners   right-across, left-across: the order around the points of the old contour
#![tactic(auto)]

ghost use Rattle.stacked_points.specs.Laws.{FanGoesAround, FanIsApart, FanTurns};
ghost use Rattle.stacked_points.specs.Laws.{FirstDiffer, LastDiffer, SidesDiffer};
ghost use Rattle.stacked_points.specs.Laws.{FirstTurns, InnerTurns, LastTurns, LeftEndTurns, RightEndTurns};
ghost use Rattle.stacked_points.specs.Laws.{NewIsNotUnder, NewIsOver, NewMeetsOld, NewMeetsSegments};
ghost use Rattle.stacked_points.specs.Laws.{NewIsUnder, OldStaysUnder, StaysContour};

/// The laws that points below v, with v over each edge from one to the next, come counterclockwise around v: each two make a turn
/// to the left, so no two lie in one direction, and the list goes counterclockwise.
pub fn points_fan_out()
    ensures turn { FanTurns }
    ensures apart { FanIsApart }
    ensures around { FanGoesAround }
{}

/// The laws that a point of a new segment is over each edge of the stretch that spans it, unless it is the lower end; so it is on
/// a segment under the old contour only where it is this end, and v is not under the old contour (de Fraysseix, Pach and Pollack
/// 1990).
pub fn new_is_over()
    ensures over { NewIsOver }
    ensures meet { NewMeetsOld }
    ensures segment { NewMeetsSegments }
    ensures new { NewIsNotUnder }
{}

/// The laws that the new contour is one, and that all that was under the old one and all new segments are under it.
pub fn all_stay_under()
    ensures contour { StaysContour }
    ensures old { OldStaysUnder }
    ensures new { NewIsUnder }
{}

/// The laws that around each point of the stretch two of three turns are to the left: from the right neighbour to v, from v to the
/// left neighbour, and from the left one to the right one. At the ends of the contour, the other end takes the place of the
/// neighbour that is missing.
pub fn corners_turn()
    ensures inner { InnerTurns }
    ensures left { LeftEndTurns }
    ensures right { RightEndTurns }
    ensures first { FirstTurns }
    ensures last { LastTurns }
{}

/// The laws that the directions to the two neighbours differ, as one more point at the end of a counterclockwise list asks.
pub fn neighbours_differ()
    ensures sides { SidesDiffer }
    ensures first { FirstDiffer }
    ensures last { LastDiffer }
{}
