// Closure: what is known of statements whose facts are all derived, and the trial of one statement more.
#![tactic(auto)]

mod closed;
mod making;
mod trials;

pub use closed::Closed;
pub use making::make;
pub use trials::trial;
