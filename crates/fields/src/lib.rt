// Fields of a sheet, and the refusals of a malformed one by number and offset.
#![tactic(auto)]

mod fields;
mod limits;
mod numbers;
mod refusals;

pub use fields::{Field, Read, has_bit, read_byte, read_if, read_variable, read_word};
pub use limits::{MOST_FEATURES, MOST_ITEMS, MOST_VARIABLES};
pub use numbers::{Cursor, Feature, Label, Variable};
pub use refusals::{Fault, Place, Refusal};
