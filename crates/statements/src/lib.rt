// Statements: what the records of a sheet state, as the derivation is lent it.
#![tactic(auto)]

mod gathering;
mod lists;

pub use gathering::gather;
pub use lists::{Lists, PAIRS, SELECTIONS};
