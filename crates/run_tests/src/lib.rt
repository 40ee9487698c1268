// Tests of whole runs, over devices in memory.
//
// A test shows what no contract says: worked reports and summaries, files and scripts that mislead, and devices each of whose calls
// fails in turn. The tests are here, above the crate that they test, so that the gate need not prove it again with them.
#![tactic(auto)]

#[cfg(test)]
mod reports;
