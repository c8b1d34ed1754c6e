// The printed outcome of a sheet: its lines, and whole lines written into a lent array.
#![tactic(auto)]

mod blocks;
mod line;
mod printout;

pub use blocks::Block;
pub use line::LINE_ROOM;
pub use printout::Printout;
