// Numerals: numbers written in base ten, without leading zeros.
#![tactic(auto)]

mod numerals;

pub use numerals::{LONGEST_NUMERAL, numeral_length, write_numeral};
