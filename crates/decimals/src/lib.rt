// Numbers in texts: decimal digits that are read, and words and numbers that are appended to a text.
//
// A number is read from one or more decimal digits; leading zeros are allowed, signs and white space are not. Which texts spell
// a number below a limit is `number_below` of specs/Number.antt, for every reader of the tool: the GML file, the script and the
// words that the program is called with. Numbers are written in decimal without leading zeros.
//
// The lemmas (module of proofs/ in front):
//   Digits       number_refused, number_ended, digit_goes_on: a number read digit by digit
#![tactic(auto)]

mod reading;
mod writing;

pub use reading::{number, number_up_to};
pub use writing::{push_number, push_signed, push_spaced, push_spaced_wide, push_word};
