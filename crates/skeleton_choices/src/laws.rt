// The laws of choices: each is a function without a body, whose contract is the theorem.

ghost use Rattle.skeletons.specs.Laws.{ChoiceIsPossible, ChoicesTell, KeptListExists, LastIsMirrorOfFirst, MoveKeepsPlane, MovesLead, ReachedIsKept, ReachedListIsKeptList, SelectionExists};

/// The law that the choices determine a plane rotation system of a block, that they are possible, and that every selection of
/// possible choices is that of a plane rotation system.
pub fn choices_tell_plane_systems()
    ensures tell { ChoicesTell }
    ensures possible { ChoiceIsPossible }
    ensures exists { SelectionExists }
{}

/// The law that a flip or a permute keeps a rotation system plane.
pub fn moves_keep_plane()
    ensures { MoveKeepsPlane }
{}

/// The law that from a plane rotation system moves of nodes that are not locked reach just the plane rotation systems with
/// the same choices at the locked nodes, so that the reachable list and the list with locked nodes are one; and that the moves
/// from one to another lead there, through plane rotation systems.
pub fn moves_reach_all()
    ensures kept { ReachedIsKept }
    ensures lists { ReachedListIsKeptList }
    ensures lead { MovesLead }
{}

/// The law that there is a list with locked nodes, as long as the product of (n - 1)! over the unlocked bonds with n items, and
/// 2 over the unlocked triconnected nodes; and that the last member of the full list is the mirror image of the first.
pub fn lists_of_plane_systems()
    ensures exists { KeptListExists }
    ensures last { LastIsMirrorOfFirst }
{}
