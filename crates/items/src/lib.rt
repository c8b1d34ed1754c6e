// Records and questions of a sheet, paths, and what they state and ask.
#![tactic(auto)]

mod items;
mod paths;

pub use items::{Edge, Item, Question, Statement, items_end, read_question, read_record};
pub use paths::{Path, path_at};
