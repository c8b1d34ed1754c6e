// Table: the fact table behind its accessors, and the queue of changed cells.
#![tactic(auto)]

mod cells;
mod queue;
mod table;

pub use cells::{BOTH, Kinds, NEITHER};
pub use queue::{Entry, Queue, ROOM, push};
pub use table::{Table, store};
