// Outcomes: all rows of the refusals in their order, what a closed table tells, and the outcome with its number.
#![tactic(auto)]

mod buffers;
mod closed;
mod outcomes;

pub use buffers::judge;
pub use closed::outcome_of;
pub use outcomes::Outcome;
