// Tests of rings, graphs, rotation systems, faces, blocks, drawings, triangulations and canonical orders.
//
// A test shows what no contract says: worked rows, the results for texts, and that each call succeeds where there is enough memory.
// The tests are here, above the crates that they test, so that the gate need not prove those a second time together with them.
#![tactic(auto)]

#[cfg(test)]
mod block_structures;
#[cfg(test)]
mod drawings;
#[cfg(test)]
mod drawn;
#[cfg(test)]
mod face_tracing;
#[cfg(test)]
mod graphs;
#[cfg(test)]
mod peeling;
#[cfg(test)]
mod rings;
#[cfg(test)]
mod rotation_systems;
#[cfg(test)]
mod shifting;
#[cfg(test)]
mod triangulating;
