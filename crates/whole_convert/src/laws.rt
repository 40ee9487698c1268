// The laws on the rotation systems of a component and the moves between them: each is a function without a body, whose contract is the
// theorem.

ghost use Rattle.whole_convert.specs.Laws.{ComponentIsConnected, PartsArePlane, WholeMovesLead};

/// The laws that a component is connected, so that a rotation system of it is plane exactly where V - E + F is 2 (Euler 1758,
/// Heffter 1891), and that a plane one leaves a plane rotation system on each block.
pub fn whole_to_parts()
    ensures connected { ComponentIsConnected }
    ensures plane { PartsArePlane }
{}

/// The law that the moves from a rotation system of a component to another plane one, which has the same choices at the locked nodes,
/// lead there, one after the other, and that the rotation system after each of them is plane.
pub fn whole_moves_lead()
    ensures { WholeMovesLead }
{}
