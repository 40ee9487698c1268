// Lists of choices: their order, arrangements, products, and the place of each member: theory without code that runs.
//
// The planar embeddings of a block are determined by one choice for each node of its tree: of a bond an arrangement of its keys
// with the least first, of a rigid node one of two that are mirror images of each other, of the others nothing. A choice is a
// list of numbers, a vector a list of choices, one for each node. Choices are ordered lexicographically, and so are vectors:
// the first place where they differ decides. The list of all vectors is the product of the lists of possible choices, the first
// place most significant; so the place of a vector is a number in a mixed radix, whose digits are the places of its choices,
// and the digit of a bond is the number of its arrangement in the factorial number system (C.-A. Laisant, Sur la numeration
// factorielle, application aux permutations, 1888; D. H. Lehmer, Teaching combinatorial tricks to a computer, 1960). The next
// arrangement is found after the last ascent (Narayana, 14th century; E. W. Dijkstra, A Discipline of Programming, 1976), the
// next vector as a number is counted up. A place that is locked has its present choice alone. Each law below is a function
// without a body, whose contract is the theorem. Nothing here knows graphs.
//
// The lemmas that are used most, by their modules in proofs/:
//   Places       At, Has, at-from, at-is, has-from, contains-from: places by recursion, to and from the public words;
//                Ascends, ascends-from, rising-from, ascends-once, ascends-reverse: increasing lists by recursion
//   Orders       linear-lexicographic, linear-before, linear-vectors, before-lexicographic, lex-longer; rising-same: an increasing
//                list is determined by its members, for any order in which never two come before each other
//   Branches     branched-at, branched-back, branched-ascends: lists that branch by their first member
//   Products     product-length, product-at, selection-has, has-selection, product-ascends, product-first, product-last,
//                next_vector-at, last-or-next
//   Numbers      radix-below, digits-number, number-digits, horner-number, radix-more, checked-product
//   Locks        locked-selection, selection-locked, locked-ascend
//   Smaller      smaller-permuted, smaller-none, smaller-all, permutation-tail: how many are smaller
//   Arrangements arrangements-length, arrangement-at, numbered-at, rising-number, falling-number, number-below
//   NextArrangement next-follows, falling-or-next
//   Choices      bond-list, bond-at, bond-next, rigid-has, rigid-first, rigid-second, mirror-is, choice_list-ends
//   ToldByChoices listed-by_vectors: things of any kind that are determined by their choices, and have every selection of possible ones,
//                are listed in the order of their choices; as many as the product; the choices of the last where those of the
//                first are mirrored
#![tactic(auto)]

ghost use Rattle.choice_lists.specs.Laws.{NumberTellsArrangement, LehmerDigits, NumberInParts, ProductInParts, LockedRadices};
ghost use Rattle.choice_lists.specs.Laws.{LockedDigits, ArrangementsAreCounted, ArrangementsAreListed, BondBeginsRising};
ghost use Rattle.choice_lists.specs.Laws.{BondChoiceIsNumbered, BondChoicesAreCounted, BondChoicesAreListed, BondEndsMirrored};
ghost use Rattle.choice_lists.specs.Laws.{ChoiceListsEndMirrored, ChoiceListsRise, ChoicesAreOrdered, DigitsOfNumber};
ghost use Rattle.choice_lists.specs.Laws.{DigitsOfPlace, FactorialIsProduct, FallingHasNoNext, FallsOrHasNext};
ghost use Rattle.choice_lists.specs.Laws.{FirstDifferenceDecides, FirstVector, LastHasNoNext, LastOrHasNext, LastVector};
ghost use Rattle.choice_lists.specs.Laws.{LastVectorIsMirrored, LockedAreListed, LockedListsRise, MembersTellRisingLists};
ghost use Rattle.choice_lists.specs.Laws.{MirrorDiffers, MirrorTurnsRound, MirrorTwice, NextArrangementFollows};
ghost use Rattle.choice_lists.specs.Laws.{NextArrangementRearranges, NextBondChoice, NextVectorFollows, NoneLocked};
ghost use Rattle.choice_lists.specs.Laws.{NumberBelowProduct, NumberFromTheFirst, NumberFromTheLast, NumberIsBelow};
ghost use Rattle.choice_lists.specs.Laws.{NumberIsPlace, NumberOfDigits, NumberOfNumbered, NumberedByNumber, OnePlaceMore};
ghost use Rattle.choice_lists.specs.Laws.{PlaceIsNumber, PlaceOfVector, ProductWithinLimit, RigidChoicesAreCounted};
ghost use Rattle.choice_lists.specs.Laws.{RigidChoicesAreListed, RigidChoicesFromEither, SecondKeyDecides};
ghost use Rattle.choice_lists.specs.Laws.{SelectionsAreCounted, SelectionsAreListed, SelectionsHaveDigits, VectorsAreOrdered};

/// The laws that choices and vectors are linearly ordered by the first difference, and that an increasing list is determined by
/// its members.
pub fn choices_are_ordered()
    ensures choices { ChoicesAreOrdered }
    ensures vectors { VectorsAreOrdered }
    ensures difference { FirstDifferenceDecides }
    ensures one_more { OnePlaceMore }
    ensures told { MembersTellRisingLists }
{}

/// The laws that the arrangements of increasing keys are all listed, in lexicographic order, and how many there are.
pub fn arrangements_are_listed()
    ensures listed { ArrangementsAreListed }
    ensures counted { ArrangementsAreCounted }
{}

/// The laws that the place of an arrangement is its number in the factorial number system, both ways (Laisant 1888, Lehmer
/// 1960).
pub fn arrangements_are_numbered()
    ensures place { NumberIsPlace }
    ensures at_place { PlaceIsNumber }
    ensures back { NumberOfNumbered }
    ensures forth { NumberedByNumber }
    ensures below { NumberIsBelow }
    ensures told { NumberTellsArrangement }
    ensures lehmer { LehmerDigits }
{}

/// The laws that the next arrangement is at the next place, that its number is one more, and that exactly the last one has
/// none (Narayana; Dijkstra 1976).
pub fn arrangement_that_follows()
    ensures follows { NextArrangementFollows }
    ensures rearranges { NextArrangementRearranges }
    ensures some { FallsOrHasNext }
    ensures none { FallingHasNoNext }
{}

/// The laws on the possible choices of a bond: all are listed in order, (k - 1)! for k keys, each at the place that its number
/// says; the next one; and the last is the mirror image of the first.
pub fn choices_of_a_bond()
    ensures listed { BondChoicesAreListed }
    ensures counted { BondChoicesAreCounted }
    ensures numbered { BondChoiceIsNumbered }
    ensures begins { BondBeginsRising }
    ensures ends { BondEndsMirrored }
    ensures follows { NextBondChoice }
{}

/// The laws on the two choices of a rigid node, and on mirror images: which comes first is determined by the second key and the
/// last.
pub fn choices_of_a_rigid_node()
    ensures turned { MirrorTurnsRound }
    ensures twice { MirrorTwice }
    ensures differs { MirrorDiffers }
    ensures listed { RigidChoicesAreListed }
    ensures counted { RigidChoicesAreCounted }
    ensures either { RigidChoicesFromEither }
    ensures second { SecondKeyDecides }
{}

/// The laws that the choices of each node increase, and that the last is the mirror image of the first.
pub fn choices_of_any_node()
    ensures rise { ChoiceListsRise }
    ensures mirrored { ChoiceListsEndMirrored }
{}

/// The laws that the product of increasing lists has exactly the selections, in the order of vectors, as many as the product of
/// the lengths; which is first, and which last.
pub fn selections_are_listed()
    ensures listed { SelectionsAreListed }
    ensures counted { SelectionsAreCounted }
    ensures first { FirstVector }
    ensures last { LastVector }
    ensures mirrored { LastVectorIsMirrored }
{}

/// The laws that the place of a vector is the number with its digits, the places of its choices, and that the digits are those
/// of the place.
pub fn vectors_are_numbered()
    ensures digits { SelectionsHaveDigits }
    ensures place { PlaceOfVector }
    ensures at_place { DigitsOfPlace }
{}

/// The laws on numbers in a mixed radix: digits and number determine each other, and the number is built up from either end.
pub fn digits_tell_numbers()
    ensures below { NumberBelowProduct }
    ensures forth { DigitsOfNumber }
    ensures back { NumberOfDigits }
    ensures from_first { NumberFromTheFirst }
    ensures from_last { NumberFromTheLast }
    ensures parts { NumberInParts }
    ensures product { ProductInParts }
{}

/// The laws that the next vector is at the next place, and that exactly the last one has none.
pub fn vector_that_follows()
    ensures follows { NextVectorFollows }
    ensures some { LastOrHasNext }
    ensures none { LastHasNoNext }
{}

/// The laws that with some places locked the product has exactly the selections that agree there, and that without they are
/// all.
pub fn places_may_be_locked()
    ensures listed { LockedAreListed }
    ensures rise { LockedListsRise }
    ensures none { NoneLocked }
    ensures radices { LockedRadices }
    ensures digits { LockedDigits }
{}

/// The laws that a product taken factor after factor passes a limit exactly where the whole product does, and that a factorial
/// is a product of the numbers from one.
pub fn product_within_a_limit()
    ensures exact { ProductWithinLimit }
    ensures factorial { FactorialIsProduct }
{}
