// Derivation: all facts that follow from stated pairs and selections, by descent and the queue.
#![tactic(auto)]

mod derivation;
mod descent;
mod pairs;

pub use derivation::derive;
pub use descent::run;
pub use pairs::Pair;
