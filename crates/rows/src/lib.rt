// Rows: sets of variables by value, a bit for each.
#![tactic(auto)]

mod rows;

pub use rows::{HEIGHT, Row, WIDTH, either, has_member, none, one, some, with};
