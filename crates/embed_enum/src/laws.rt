// The laws of places in a list: each is a function without a body, whose contract is the theorem.

ghost use Rattle.embed_enum.specs.Laws.{LastHasNoneBehind, ListFromEachMember, MembersHaveRanks, NextsFollow, PresentHasRank, RankTellsMember, RanksFollowOrder};

/// The law that the list with locked nodes is the same from each of its members; that its members have one rank each, and one
/// member each rank; that a lower rank comes before; and that the last member is the one that no member follows.
pub fn ranks_tell_members()
    ensures told { RankTellsMember }
    ensures members { MembersHaveRanks }
    ensures each { ListFromEachMember }
    ensures order { RanksFollowOrder }
    ensures last { LastHasNoneBehind }
    ensures present { PresentHasRank }
{}

/// The law that n steps, each to the next member, lead n places on.
pub fn walks_follow_the_list()
    ensures { NextsFollow }
{}
