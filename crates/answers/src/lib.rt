// Answers: what is told of a closed fact table: the clash, labels, counts and support.
#![tactic(auto)]

mod cells;
mod clashes;
mod counts;
mod roots;
mod support;

pub use cells::has_fact;
pub use clashes::{clash_of, label_clashes};
pub use counts::count_facts;
pub use roots::root_labels;
pub use support::supports;
