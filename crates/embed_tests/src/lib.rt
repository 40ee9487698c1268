// Tests of plane blocks, their moves and history, lists of rotation systems, components of several blocks, and made graphs.
//
// A test shows what no contract says: worked rows, the answers to texts, and that each call succeeds where memory suffices.
// The tests are here, above the crates that they test, so that the gate need not prove those again together with them.
#![tactic(auto)]

#[cfg(test)]
mod conversions;
#[cfg(test)]
mod histories;
#[cfg(test)]
mod longest_faces;
#[cfg(test)]
mod made_graphs;
#[cfg(test)]
mod node_moves;
#[cfg(test)]
mod plane_blocks;
#[cfg(test)]
mod skeleton_members;
#[cfg(test)]
mod small_blocks;
#[cfg(test)]
mod summaries;
#[cfg(test)]
mod walks;
#[cfg(test)]
mod whole_graphs;
#[cfg(test)]
mod whole_moves_rows;
#[cfg(test)]
mod whole_rows;
