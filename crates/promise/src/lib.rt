// No code: what a check of a sheet returns and leaves, what that means of trees, and the theorems that users rest on.
#![tactic(auto)]
