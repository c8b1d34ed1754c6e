// The labels that the roots of variables must have.
ghost use Rattle.std.specs.Prelude.{get_or, None, ◌≡◌};
ghost use Rattle.labels.specs.Roots.{Unlabelled};

use fields::{Label, MOST_VARIABLES};

// Of each variable the label that is told of it, if there is one.
// Fixed memory, with no heap: what is no variable of the sheet has none.
#[derive(Clone, Copy, Debug, PartialEq, Eq)]
pub struct RootLabels {
    pub at: [Option<Label>; MOST_VARIABLES],
}

impl RootLabels {
    // None is told.
    pub fn none() -> RootLabels
        ensures { Unlabelled result }
    {
        RootLabels {
            at: [None; MOST_VARIABLES],
        }
    }

    // The label told of i, whether or not it is a variable.
    pub fn of(&self, i: usize) -> Option<Label>
        ensures { result ≡ get_or self.now.at i None }
    {
        if i < MOST_VARIABLES { self.at[i] } else { None }
    }
}
