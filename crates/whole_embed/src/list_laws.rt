// The laws on the list of a component: a function without a body, whose contract is the theorem.

ghost use Rattle.whole_embed.specs.Listed.{WholeListExists, WholeListIsUnique, WholeHasRank, MemberIsOfParts};

/// The laws that a component whose blocks are in the plane has a list of all plane rotation systems whose parts in the blocks keep
/// the choices of the locked nodes, and one alone; that the present rotation system is in it; and that each member is the rotation
/// system that its parts in the blocks and its orders around the cut vertices make.
pub fn one_list()
    ensures exists { WholeListExists }
    ensures unique { WholeListIsUnique }
    ensures present { WholeHasRank }
    ensures of_parts { MemberIsOfParts }
{}
