// The engine: the check of a sheet, for C and for library users.
#![tactic(auto)]

mod at_path;
mod checking;
mod exports;
mod reply;
mod roots;
mod sheets;

pub use at_path::{AtPath, check_at_path};
pub use checking::check;
pub use exports::{check_path, check_sheet, root_label};
pub use labels::RootLabels;
pub use outcomes::Outcome;
pub use roots::{Labelled, check_labelled, root_labels};
pub use rules::{NoReply, Reply};
pub use sheet::{
    Accepted, Cursor, Fault, Header, LARGEST_TABLE, LONGEST_SHEET, Label, MOST_REPLIES, Refusal,
    Variable, read_header, read_sheet, record_part,
};
