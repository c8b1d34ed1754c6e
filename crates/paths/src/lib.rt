// Paths: the variables that a path leads to, as a row, by a closed fact table and the selection list.
#![tactic(auto)]

mod sets;
mod walk;

pub use walk::{has_path, path_label};
