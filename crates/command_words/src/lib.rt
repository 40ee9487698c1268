// The words that the program is called with.
//
// A form is three words, none of which begins with `-`: `run GRAPH SCRIPT`, or `make N SEED` with two numbers in decimal digits.
// Words that begin with `-` are rejected first; the others are read by `clap`, as a command with three required positionals, and
// the numbers are then read as text. Three such words `clap` accepts unless memory runs out; none, one, two, four or more of them
// it rejects. Both are proved of all words, from its clauses on simple commands.
//
// The lemmas (module of proofs/ in front):
//   Plain        word-value, three-walked, three-matches, three-takes: three words, step by step
//   OtherWords   none-missing, one-missing, two-missing, four-unknown: fewer words and more
//   ThreeWords   taken-three, refused-other: both together
//   Ranges       make-range: a graph that is asked for has from 6 to 20,000 edges
#![tactic(auto)]

mod forms;
pub mod laws;
mod numbers;
mod positionals;

pub use forms::{Form, form_of};
