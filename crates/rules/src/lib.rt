// Rules: the facts that statements give by F1 to F4, the clash of F5, the variables that a path leads to, support and
// replies, as definitions with their laws.
#![tactic(auto)]

mod clashes;
mod kinds;
mod replies;
mod verdicts;

pub use clashes::Clash;
pub use kinds::Kind;
pub use replies::{NoReply, Reply};
pub use verdicts::Verdict;
