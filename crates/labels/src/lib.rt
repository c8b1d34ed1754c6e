// Labels: those that are stated, as they are kept, whether any two differ at all, and those that are told of roots.
#![tactic(auto)]

mod labels;
mod roots;
mod spread;

pub use labels::Labels;
pub use roots::RootLabels;
pub use spread::Spread;
