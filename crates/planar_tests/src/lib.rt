// Tests of subdivisions and of the embedders.
//
// A test shows what no contract says: worked rows, the answers to texts, and that each call succeeds where memory suffices.
// The tests are here, above the crates that they test, so that the gate need not prove those again together with them.
#![tactic(auto)]

#[cfg(test)]
mod drawings;
#[cfg(test)]
mod embedders;
#[cfg(test)]
mod mistakes;
#[cfg(test)]
mod narrow_graphs;
#[cfg(test)]
mod path_embedders;
#[cfg(test)]
mod quick_embedders;
#[cfg(test)]
mod rows;
#[cfg(test)]
mod subdivisions;
