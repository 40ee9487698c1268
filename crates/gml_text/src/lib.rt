// GML, read and written.
//
// A GML file is a run of pairs of a key and a value, where a value is a number, a string or pairs in brackets (M. Himsolt,
// GML: a portable graph file format, 1997). `read` takes the bytes of a whole file and gives its document; `write` gives the one
// layout of a document. `push_pair`, `push_string`, `push_opening` and `push_closing` give single lines of the layout, for a caller
// that writes a document otherwise than it was read. Which bytes spell which document is a relation, in specs/Grammar.antt: the
// reader returns Ok exactly where it holds, with the document that is spelled, and Bad or End exactly where it holds of no document,
// at the end of the longest prefix with which some document begins (specs/Front.antt). Each document that a program can hold has a
// text: its layout spells it, so what is written is read again. A text spells at most one document.
#![tactic(auto)]

mod classes;
pub mod document;
mod item;
pub mod laws;
mod number;
mod partial;
pub mod reader;
mod scan;
pub mod writer;

pub use document::{Bytes, Doc, GmlFault, Pair, Pairs, Value};
pub use reader::read;
pub use writer::{push_closing, push_opening, push_pair, push_string, write};
