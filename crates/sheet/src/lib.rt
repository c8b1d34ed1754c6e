// Sheets: the whole byte format, and its reader.
#![tactic(auto)]

mod headers;
mod numbered;
mod parts;
mod reading;
mod whole;

pub use fields::{Cursor, Fault, Feature, Field, Label, Place, Read, Refusal, Variable, has_bit};
pub use headers::{Header, LARGEST_TABLE, MOST_REPLIES, read_header};
pub use items::{
    Edge, Item, Path, Question, Statement, items_end, path_at, read_question, read_record,
};
pub use numbered::question_numbered;
pub use parts::record_part;
pub use reading::{Reader, behind_record};
pub use whole::{Accepted, LONGEST_SHEET, read_sheet};
