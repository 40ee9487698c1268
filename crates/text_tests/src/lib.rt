// Tests of GML, the graph of a document, scripts, the lines of reports, the words of the command line, and devices.
//
// A test shows what no contract says: worked rows, the answers to texts, and that each call succeeds where memory suffices.
// The tests are here, above the crates that they test, so that the gate need not prove those again together with them.
#![tactic(auto)]

#[cfg(test)]
mod devices;
#[cfg(test)]
mod document_graphs;
#[cfg(test)]
mod documents;
#[cfg(test)]
mod marks;
#[cfg(test)]
mod scripts;
#[cfg(test)]
mod starts;
#[cfg(test)]
mod words;
