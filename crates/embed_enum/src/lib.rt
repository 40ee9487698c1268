// The list of the plane rotation systems of a block, walked, counted and ranked, with some nodes of its tree locked.
//
// A plane rotation system of a block is determined by the choices of the bonds and the triconnected nodes of its tree, and every
// selection of possible choices is that of one (Di Battista and Tamassia 1996). The list holds those that have the present
// choices at the locked nodes, in the order by the first node at which the choices differ. So a place in it is a number in a
// mixed radix, with a digit for each node: of a triconnected node 0 or 1, of a bond the number of its ordering in the
// factorial number system (Laisant 1888; Lehmer 1960); a locked node has the radix 1. Nothing is listed to find a place.
//
// `count` gives the length and `rank` the place of the present rotation system, both only where the length is below 2^128.
// `moves_to_first`, `moves_to_next` and `moves_to_rank` read off the moves that lead to the first member, to the following one and to
// the one at a place, at most one of each node, and leave the block as it is. The following one is found as a number is counted up: the
// last node that is not at its last choice advances by one (of a bond the next ordering: Narayana, 14th century; Dijkstra 1976),
// and those after it return to their first choices. `first` and `next` change the block in place. All but `moves_to_rank` need no
// number, and work on lists of any length. `members_after` keeps the members that follow. The list is the same from each of its
// members, so a walk stays in it.
//
// `count`, `rank`, `first` and `next` take no memory, and a call that fails changes nothing. What they cost, in looks at choices:
// `count` a look at each node, and no more than 128 products by factors above one. `rank` the square of the number of items of
// each bond that is not locked, and `moves_to_rank` its cube; that number is 35 at most there, or else the list is over. `next` and
// `moves_to_next` the keys of the nodes that they try, from the last up to the one that advances, and of those after it; `first` and
// `moves_to_first` all keys. In addition, `first` and `next` make exchanges and flips, each of which walks around the poles of its
// bond, or the vertices of its node: at most one exchange for each item of a bond.
//
// The lemmas (module of proofs/ in front):
//   Digits   number-next, number-last, number-below, behind-divided: numbers with digits at n places
//   Ranks    rank-number: the rank is the number of the digits; list-length; digit-below
//   States   state-rank, state-length, number-fits, radix-fits: the same of a block
//   Counts   orders-more, count-grows: factors one after the other; number-step: the number of an ordering from the first key on
//   Swaps    exchanged-swap: keys that change places, by places; turning-more, turning-ends: a turn by exchanges
//   Rises    falls-more, next-made: the last rise, and the ordering that follows
//   Placed   placed-swap, smaller-held: an ordering put together from its number
//   Bonds    bond-of, arranged-more: the keys of a bond; keeps-then: one change after another
//   Single   flip-chosen, exchange-chosen: what one move does to the choices
//   Nodes    mirror-digit, bond-ends, bond-begins: digits by the kind of the node
//   Walks    reset-more, next-number, numbered-more, rank-after, list-after, one-rank: from digits to places
//   Leads    flip-to, permute-to, next-to: what one move leads to; led-more, next-led: moves one after the other
//   Reaches  placed-next: the keys of a bond from a number; reach-more, reach-ends: moves to all digits of a number
//   Places   lower-before, nexts-follow, follows-more: places in a list
#![tactic(auto)]

mod counting;
mod laws;
mod leading;
mod listing;
mod moving;
mod ranking;
mod reaching;
mod stepping;
mod walking;

pub use counting::{CountOver, count};
pub use laws::{ranks_tell_members, walks_follow_the_list};
pub use leading::{moves_to_first, moves_to_next};
pub use listing::members_after;
pub use ranking::rank;
pub use reaching::{GotoFault, moves_to_rank};
pub use walking::{first, next};
