// Laws about components and their rotation systems: each is a function without a body, whose contract is the theorem.
ghost use Rattle.whole_embed.specs.Laws.{ComponentIsPart, WholeIsPlane, WholeIsGiven, WholeHasParts, WholeHasArrangements};

/// The law that a component is the part of its graph which its vertices and edges make.
pub fn component_is_part()
    ensures { ComponentIsPart }
{}

/// The laws on the rotation system that a component has by plane rotation systems of its blocks and arrangements at its cut
/// vertices: it is plane, it is the one that its lists give, its part in each block is that of the block, and around each cut
/// vertex it has the arrangement.
pub fn whole_of_parts()
    ensures plane { WholeIsPlane }
    ensures given { WholeIsGiven }
    ensures parts { WholeHasParts }
    ensures arrangements { WholeHasArrangements }
{}
