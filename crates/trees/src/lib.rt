// No code: feature trees, what the answers mean of them, and the proofs.
#![tactic(auto)]
