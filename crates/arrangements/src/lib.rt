// Arrangements of the edges around a vertex.
//
// Around a cut vertex there are edges of several blocks. Each block has a cyclic order of its own edges there. An arrangement is
// a cyclic order of all edges that keeps those of the blocks and in which no two blocks cross: no edges of two blocks alternate.
// So the blocks are nested, each in one corner of the others. (By the theorem of block_planes these are the cyclic orders around
// a vertex in a rotation system that is plane and restricts to the given ones.) An arrangement is written from its least edge
// on, and the arrangements at a vertex are listed in lexicographic order: all cyclic orders of the edges, without those that
// change the order of a block or in which two blocks cross. The blocks have numbers; nothing here knows graphs.
//
// Whether two blocks cross is a test: of their edges alone, along the list, the block changes more than twice. That is so
// exactly where edges of the one and the other alternate around the vertex, and it doesn't matter where the list begins.
//
// Arrangements are made edge by edge, as brackets of several kinds are matched. Of a prefix a block is opened if it has an edge
// there, and unfinished if other edges of it are missing. An option is an edge that may come next: any edge of a block that is
// not opened, or the follower of the last edge of the unfinished block that was opened last. A list of all edges from the least
// on is an arrangement exactly where each edge is an option of those before it. Where another edge of an unfinished block came,
// its block would cross the one that was opened last, which still has an edge to come; and edges of two blocks that alternate
// contain such a place. While edges are missing there is an option: so a prefix that is made of options can be completed, and
// no search is needed. With the least option at each place comes the least arrangement with a given prefix. The next
// arrangement differs from one at the last place where a greater option exists: it has the least greater one there, and the
// least options after it.
//
// The calls work on tables of one vertex, which say of each edge the rank of its block and the edge that follows it there. What is
// noted of a prefix is which edges are in it, which blocks are opened, and a stack of the edges that come next in the unfinished
// blocks. To lay an edge takes a search for it among the edges of the vertex, and all else is constant on average, so the first
// arrangement and the next take time in proportion to d log d for d edges. All room is taken when the tables are made.
//
// The least two blocks that cross in a list that is rejected are found in two passes. In the first the unfinished blocks lie on a
// stack of groups, in the order in which they begin. Where an edge comes of a block that has begun before, the groups above its own
// are unfinished, so it crosses a block of each: all these become one group, and their blocks are noted. So each block that crosses
// another is noted, and no others; the contract promises the former alone. The second pass is for the least block that is noted.
//
// The lemmas that are used most (module of proofs/ in front):
//   Changes    cross-interleaved, four-cross: blocks cross where their edges alternate along the list; cross-is_alternate: around
//              the vertex
//   Waiting    option-cases, option-opens, option-follows: what an option is; built-cut, built-more, built-front
//   Built      facts: of each block a built list has a piece of its cyclic order; option-exists; built-arrangement and
//              arrangement-built: built lists of all edges are the arrangements
//   Greedy     filled-least, changed-next: for options of any kind, the least list and the next one
//   Listed     arrangements-listed, arrangement-length, some-arrangement, filled-first, following-next, no_greater-last
//   Tops       option-cases, from-place, from-top: the options after a prefix, by what is noted of it
//   Notes      noted-after: what is noted when one edge more is laid
//   Walked     full-exactly: the lists built of all edges are those listed
//   Passed     passed-on, passed-worse: one pass for the least block that is changed
//   Refusals   kept-or_changed, apart-or_crossing: an arrangement, or the least reason why a list is not one
//   Turns      keeps-turn, cross-turn, changed-turn, crossing-turn: it doesn't matter where a list begins
//   Along      keeps-along: a block keeps its cyclic order where each of its edges follows the one before it
//   Gaps       gaps-cross, cross-gaps: two blocks cross where edges of the one are in two gaps of the other
//   Ranked     answer-ranked: blocks cross where their ranks do
//   RankPasses passed-first, passed-again, passed-other, passed-found, passed-none: a pass through the list of ranks
//   Grouped    groups-closed, groups-opened, groups-joined, all-noted: the groups of blocks that cross, place by place
#![tactic(auto)]

mod crossings;
mod groups;
mod kept;
mod making;
mod prefixes;
mod tables;
mod vertices;

ghost use Rattle.arrangements.specs.Laws.{ArrangedByOptions, ArrangedOrRefused, ArrangementsAtAreListed, CrossIsAlternate};
ghost use Rattle.arrangements.specs.Laws.{CrossInEachTurn, FilledIsFirst, FirstArrangementIsFirst, FollowingIsNext};
ghost use Rattle.arrangements.specs.Laws.{KeptInEachTurn, NoGreaterIsLast, OptionExists};

pub use vertices::VertexOrders;

/// The laws that two blocks cross, by the test on a list, exactly where their edges alternate around the vertex, and that it
/// doesn't matter where the list begins.
pub fn blocks_that_alternate()
    ensures alternate { CrossIsAlternate }
    ensures cross { CrossInEachTurn }
    ensures kept { KeptInEachTurn }
{}

/// The laws that the arrangements at a vertex are all listed, in lexicographic order, and that there is a first one.
pub fn arrangements_at_a_vertex()
    ensures listed { ArrangementsAtAreListed }
    ensures first { FirstArrangementIsFirst }
{}

/// The law that a list of edges is an arrangement, or there is a least block whose cyclic order it changes, or there are two
/// least blocks that cross.
pub fn reasons_to_refuse()
    ensures { ArrangedOrRefused }
{}

/// The laws that the arrangements are the lists in which each edge is an option of those before it, that an option exists while
/// edges are missing, and how the first arrangement, the next and the last are known by options.
pub fn arrangements_by_options()
    ensures exact { ArrangedByOptions }
    ensures some { OptionExists }
    ensures first { FilledIsFirst }
    ensures next { FollowingIsNext }
    ensures last { NoGreaterIsLast }
{}
