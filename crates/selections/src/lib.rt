// Selections: the list of all i[f]j in record order, and its groups, one for each variable.
#![tactic(auto)]

mod grouped;
mod grouping;
mod listed;
mod trial;

pub use grouped::{Child, Group, Groups, PLACES};
pub use listed::Selection;
pub use trial::Kept;
