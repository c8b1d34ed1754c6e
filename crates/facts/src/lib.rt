// Facts: the insertion of a fact with all that F1 and F3 give, and the way back.
#![tactic(auto)]

mod growth;
mod insertion;
mod restoring;

pub use growth::Growth;
