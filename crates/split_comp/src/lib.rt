// Split components of a block by a palm tree, in time n log n.
//
// The search goes once along a palm tree of the block, its darts in order (Hopcroft and Tarjan 1973; Gutwenger and Mutzel
// 2001). It keeps a stack of entries: the edges that it has traversed and retracted, and the virtual edges in place of
// components that are split off. What belongs to a dart lies together on the stack. Between two darts no 2-separation of the
// current family, which is the stack and the rest of the edges, has a side inside the stack; so what is left at the end has
// none. Each step keeps this, as it splits off a least side inside the stack as soon as there is one:
//   * two parallel entries, the lower one a frond: a bond;
//   * two tree edges, where no other entry meets the vertex between them: a triangle;
//   * the entries after a cut of the stack: such a cut, of a vertex on the path and a place where a dart of that vertex starts,
//     is kept for as long as the upper ends after it may be the other vertex of a pair. A frond between the two stays apart;
//   * all below a child from which only one vertex above its parent is reached, where two entries are left beside it.
//
// `SearchSplitter` satisfies the contract of pair_split's trait `Splitter`. `split_counted` counts the turns of all loops, and
// promises that they are at most 200 for each vertex and edge.
#![tactic(auto)]

mod cuts;
mod edges;
mod items;
mod pass;
mod pushing;
mod splitter;
mod tree;
mod turning;

pub use splitter::SearchSplitter;
