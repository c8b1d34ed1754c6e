// What a compiler asks of a sheet: whether a run-time test may be left out.
#![tactic(auto)]

mod dropping;

pub use dropping::may_drop;
