// The laws of skeletons: each is a function without a body, whose contract is the theorem.

ghost use Rattle.skeletons.specs.Laws.{ContiguousFollows, FamilyIsFollowed, FamilyIsUnique, FlipExists};
ghost use Rattle.skeletons.specs.Laws.{FlipTurnsChoice, FollowerIsUnique, KeptListIsUnique, KeysMetAreOfRuns};
ghost use Rattle.skeletons.specs.Laws.{KeysRoundAreOfItems, MirrorTurnsChoices, MoveIsUnique, MoveKeepsContiguous};
ghost use Rattle.skeletons.specs.Laws.{MoveKeepsOthers, MovesNameDifferent, PermuteExists, PermuteSetsChoice};
ghost use Rattle.skeletons.specs.Laws.{PrecedesIsTested, UnlockedListIsFull};

/// The law that the keys reached around a vertex at which the groups of a node are in runs are the keys of the runs, in their
/// cyclic order from the least on, and those of the node's items at the vertex.
pub fn keys_met_are_keys_of_runs()
    ensures runs { KeysMetAreOfRuns }
    ensures items { KeysRoundAreOfItems }
{}

/// The law that rotation systems of a block in which all groups are in runs correspond one to one to families of rotation
/// systems of the skeletons of its tree: each family is followed by one rotation system, and each such rotation system
/// follows one family.
pub fn rotation_systems_follow_families()
    ensures followed { FamilyIsFollowed }
    ensures one_follower { FollowerIsUnique }
    ensures follows { ContiguousFollows }
    ensures one_family { FamilyIsUnique }
{}

/// The law on moves from a rotation system in which all groups are in runs: each triconnected node can be flipped, and each
/// bond permuted to each arrangement of its keys (Di Battista and Tamassia 1996); a move leads to one rotation system, which
/// is such a one too, and changes the choice of its node alone. The mirror image reverses every choice.
pub fn moves_change_one_choice()
    ensures flip { FlipExists }
    ensures permute { PermuteExists }
    ensures unique { MoveIsUnique }
    ensures runs { MoveKeepsContiguous }
    ensures others { MoveKeepsOthers }
    ensures flipped { FlipTurnsChoice }
    ensures permuted { PermuteSetsChoice }
    ensures mirrored { MirrorTurnsChoices }
{}

/// The law that the moves from one rotation system to another name only nodes at which the choices differ.
pub fn moves_name_different_choices()
    ensures { MovesNameDifferent }
{}

/// The law that a list of rotation systems that increases by the choices is determined by its members, so that there is one
/// list with locked nodes at most; with no node locked it is the full list.
pub fn lists_are_told_by_members()
    ensures tested { PrecedesIsTested }
    ensures unique { KeptListIsUnique }
    ensures unlocked { UnlockedListIsFull }
{}
