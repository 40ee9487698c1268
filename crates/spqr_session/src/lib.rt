// A session on a graph: blocks with their trees and embeddings, and commands that are carried out on them.
//
// A session has a setting, which stays: the document, its graph, the blocks of the graph, of each block the tree of its bonds,
// polygons and triconnected graphs (Tutte 1966), and of each block that is not planar a subdivision of K5 or K3,3 (Kuratowski
// 1930). It has a state, which commands change: the current plane rotation system of each planar block, with the locks of
// the nodes, an arrangement of the edges at each cut vertex of a component whose blocks are planar, and those from before and
// after. A command is one step, a relation of the state before, the text that answers it and the state after; a report is the
// head and the texts of a chain of steps.
//
// What is promised: at the start the current rotation system of each planar block is the one that the file gives, by the order of the
// edges at each vertex; where the file gives none it is the first of the plane ones, by the choices of the nodes of its tree
// (Di Battista and Tamassia 1996), and each cut vertex has its first arrangement. A file is refused exactly where what it gives
// for a planar block is not plane. The head says of each block that it is planar exactly where it has a plane rotation system. A
// command is refused exactly where a code applies, by the lowest that does, and then changes nothing. Each command has an answer
// in each state, and one only but for `longest`, whose moves may lead to any of the longest faces, and `draw`, whose points may
// be any drawing on the grid; there is one report on a setting and commands as far as these agree. Without memory a session stays
// as it was.
//
// What is found of a block, its tree and its embedding or its certificate, depends on its graph alone, so a block with the graph of
// one of the few blocks before it starts with a copy, which shares graph and tree: a long path has one tree for all its edges.
//
// `flip`, `permute`, `mirror`, `first`, `next` and `goto` change a block in place. Their moves are of different nodes, and a move changes
// the choice of its node alone, so each is taken back by one move to the choice that was there before, in any order: room for these
// is reserved before anything changes. Where a step has many moves of one block, and together they would walk along far more edges
// than the block has, they are made on its choices, and the rotation system is composed in one pass. A change of a block sets its
// cut vertices to their first arrangements for the new blocks. So a list is kept only where another arrangement was set, and a
// change of a block removes those at its vertices; the others are found when they are asked for.
#![tactic(auto)]

mod at_once;
mod board;
mod carrying;
mod code;
mod commands;
mod embedded;
mod fault;
mod head;
mod kept;
pub mod laws;
mod lines;
mod making;
mod marks;
mod planar;
mod planned;
mod planned_moves;
mod scene;
mod session;
mod sorting;
mod starting;
mod texts;
mod whole_steps;
mod wholes;

pub use fault::StartFault;
pub use session::Session;
