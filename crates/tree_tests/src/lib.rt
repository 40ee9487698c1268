// Tests of palm trees, splitters, the tree of a block and its certificates.
//
// A test shows what no contract says: worked rows, the texts that are written, and that each call succeeds where there is
// enough memory. The tests are here, above the crates that they test, so that the gate need not prove those again together with
// them.
#![tactic(auto)]

#[cfg(test)]
mod obstructions;
#[cfg(test)]
mod palm_trees;
#[cfg(test)]
mod small_blocks;
#[cfg(test)]
mod splitters;
#[cfg(test)]
mod trees;
