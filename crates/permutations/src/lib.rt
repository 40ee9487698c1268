// Counting, equivalences by links, permutations and their orbits, and cyclic orders: theory without code that runs.
//
// Whatever is counted, searched or decided is a test, a function into the Booleans; relations are tests of two numbers. Two
// numbers are connected by links where the least equivalence that contains the links relates them; a class is counted by its
// least member, its leader. A permutation of the numbers below n is a function given with its inverse. Its orbits are the
// classes that the links from each number to its image generate, and exchanging what follows two numbers joins two orbits or
// parts one. A cyclic order is a list without repetition whose first member follows its last; written from its least member
// on it has one form, and the orbits of a permutation are such lists, its rings. A cyclic order with keys falls into runs of
// one key exactly where no two pairs of members cross. Each law below is a function without a body, whose contract is the
// theorem. Nothing here knows graphs.
//
// The lemmas that are used most, after the name of their module in proofs/:
//   Count        count-ext, count-split, count-subset, count-same: equal tests, parts, fewer; a part that is no less is the whole
//   Search       some-witness, some-from, some-none; least-passes, least-before: a witness, none, the first that passes
//   Injection    count-injection, count-bijection, pigeonhole: one to one, so no more; both ways, so equally many
//   Relation     connected-least(-typed), connected-link, connected-closed: the least equivalence; a test that the links respect
//   Leaders      leader-related, leader-same, same-leader, leads-once: related exactly where the leaders are equal
//   Classes      add-link, class_count-same, class_count-closed, classes-transfer: one link more, finer, in parts, renumbered
//   ClassSizes   class-sum, class_size-same, class-exact-size: counting class by class
//   Members      member-append_cases, distinct-append_apart, cut_at: membership in parts; a list cut at a member
//   Arrangements permutation-member, permutation-distinct, permutation-from_members, count-list: lists in another order
//   Places       place-of, same-place, told-distinct: the places of members; Mapped member-map, map-member, distinct-map
//   Orbits       orbit-step, orbit-kept: a number with its image; what f carries into itself is constant on orbits
//   TurnedOver   turned-permutes, turned-orbit: a permutation turned over where a test holds
//   Transpositions exchange-join, exchange-split, exchange-count-join: two orbits become one, one becomes two
//   Successor    successor-member, predecessor-successor, successor-cut: the next member, its inverse, its value at a cut
//   Turned       turned-head, turned-successor, turned-permutation, IsTurn-member: the same cyclic order from elsewhere
//   CyclicSame   same-lists, IsTurn-turned, IsTurn-trans: equal by first member and successors
//   NormalForm   from_least-same, same-from_least, mirror-successor: one list for each cyclic order; its mirror
//   CyclicOrder  follows-cons, follows-around, around-turn, around-successor: the order in which members come along the cycle
//   Chains       chain, chain-typed: from each member to the next, so from each to each
//   Rings        ring-member, ring-successor, ring-from_list, ring-turn: an orbit as a list, and a list as an orbit
//   Removal      successor-without, ring-taken_out: members taken out of a cyclic order and out of a permutation
//   Runs         runs-unique, runs-turn, runs-picked, cut-unique: cut by keys, in one way; RunsFromOrder runs-from_order: exactly
//                where nothing crosses; RunsByKey group-filter, groups-by_key: the run of a member, and of a key
#![tactic(auto)]

ghost use Rattle.permutations.specs.Laws.{ConnectionIsEquivalence, ConnectionIsLeast, ExchangeJoins, ExchangeParts};
ghost use Rattle.permutations.specs.Laws.{FinerHasMore, FinerIsSame, InjectionsCount, LinkBetweenClasses};
ghost use Rattle.permutations.specs.Laws.{LinkWithinAClass, LinksConnect, MirrorGoesBack, MirrorTwice};
ghost use Rattle.permutations.specs.Laws.{NormalFormsTellOrders, OrbitsAreReached, PredecessorOfSuccessor};
ghost use Rattle.permutations.specs.Laws.{RenumberingKeepsClasses, RingFollows, RingHoldsOrbit, RingIsDistinct};
ghost use Rattle.permutations.specs.Laws.{RingParted, RingTakenOut, RingsJoined, RunsAreUnique, RunsToldByKeys};
ghost use Rattle.permutations.specs.Laws.{RunsWhereNothingCrosses, SizesAddUp, SuccessorOfPredecessor};
ghost use Rattle.permutations.specs.Laws.{SuccessorStays, SuccessorsTellLists, TurnedBegins, TurnedKeepsSuccessors};
ghost use Rattle.permutations.specs.Laws.{TurnedRearranges, TwoShareAHole};

/// The pigeonhole principle: of n + 1 numbers below n two are equal; and what is carried one to one into a set is no more
/// than the set.
pub fn pigeonhole_principle()
    ensures shared { TwoShareAHole }
    ensures injections { InjectionsCount }
{}

/// The law that being connected by links is the least equivalence that contains the links.
pub fn connected_is_least_equivalence()
    ensures equivalence { ConnectionIsEquivalence }
    ensures contains { LinksConnect }
    ensures least { ConnectionIsLeast }
{}

/// The law that one link more makes one class of two, or changes nothing.
pub fn classes_of_one_more_link()
    ensures within { LinkWithinAClass }
    ensures between { LinkBetweenClasses }
{}

/// The law that a finer equivalence has more classes, or is the same.
pub fn classes_of_finer_equivalence()
    ensures more { FinerHasMore }
    ensures same { FinerIsSame }
{}

/// The laws that renumbering keeps the number of classes, and that the sizes of the classes add up to the number of all.
pub fn classes_are_counted()
    ensures renumbered { RenumberingKeepsClasses }
    ensures sum { SizesAddUp }
{}

/// The law that exchanging what follows two numbers joins their orbits where they differ, and parts their orbit where not.
pub fn exchange_joins_or_parts()
    ensures reached { OrbitsAreReached }
    ensures joins { ExchangeJoins }
    ensures parts { ExchangeParts }
{}

/// The law that on a cyclic order successor and predecessor invert each other.
pub fn successor_and_predecessor()
    ensures stays { SuccessorStays }
    ensures back { PredecessorOfSuccessor }
    ensures forth { SuccessorOfPredecessor }
{}

/// The law that a list turned to another member is the same cyclic order.
pub fn turning_keeps_cyclic_order()
    ensures begins { TurnedBegins }
    ensures rearranges { TurnedRearranges }
    ensures successors { TurnedKeepsSuccessors }
{}

/// The law that each cyclic order has one normal form, and that the mirror is an involution that reverses it.
pub fn normal_form_of_cyclic_order()
    ensures lists { SuccessorsTellLists }
    ensures orders { NormalFormsTellOrders }
    ensures back { MirrorGoesBack }
    ensures twice { MirrorTwice }
{}

/// The law that an orbit of a permutation is a cyclic order in which each number is followed by its image.
pub fn rings_of_a_permutation()
    ensures members { RingHoldsOrbit }
    ensures once { RingIsDistinct }
    ensures follows { RingFollows }
    ensures taken_out { RingTakenOut }
    ensures joined { RingsJoined }
    ensures parted { RingParted }
{}

/// The law that a cyclic order falls into runs of one key exactly where no two pairs of members cross, and in one way.
pub fn runs_where_nothing_crosses()
    ensures exact { RunsWhereNothingCrosses }
    ensures unique { RunsAreUnique }
    ensures told { RunsToldByKeys }
{}
