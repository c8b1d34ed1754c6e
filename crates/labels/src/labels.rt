// The labels stated for each variable.
ghost use Rattle.std.specs.Prelude.{◌<◌, ◌≤◌, replicate, ◌≡◌};
ghost use Rattle.fields.specs.Limits.{most_variables};
ghost use Rattle.labels.specs.declared.spread.Spread.{Spread};
ghost use Rattle.labels.specs.Labels.{spreads_with, OtherTold, DifferTold};
ghost use Rattle.labels.specs.Spreads.{spread_at, has_other, differ, spread_below};

use crate::spread::Spread;
use fields::{Label, MOST_VARIABLES};

// Of each variable: no label is stated, one, or several.
// Fixed memory, with no heap: how many variables there are is the sheet's n.
#[derive(Drop)]
pub struct Labels {
    pub spreads: [Spread; MOST_VARIABLES],
}

impl Labels {
    // No label is stated.
    pub fn none() -> Labels
        ensures { result.spreads ≡ replicate most_variables Spread.Nothing }
    {
        Labels {
            spreads: [Spread::Nothing; MOST_VARIABLES],
        }
    }

    // Notes one more stated label.
    #[tactic(auto, unfolding(crate::specs::Labels::spreads_with))]
    pub fn note(&mut self, i: usize, a: Label)
        requires { i < most_variables }
        ensures { self.new.spreads ≡ spreads_with self.old.spreads i a.0 }
    {
        self.spreads[i] = self.spreads[i].with(Spread::One(a));
    }

    // Whether a label other than a is stated for j.
    #[tactic(auto, using(crate::proofs::Kept::by_other))]
    pub fn has_other(&self, j: usize, a: Label) -> bool
        requires { j < most_variables }
        ensures value { result ≡ has_other (spread_at self.now.spreads j) a.0 }
        ensures told { OtherTold self.now.spreads j a.0 result }
    {
        self.spreads[j].has_other(a)
    }

    // Whether two different labels are stated for i and j.
    #[tactic(auto, using(crate::proofs::Kept::by_differ))]
    pub fn differ(&self, i: usize, j: usize) -> bool
        requires { (i < most_variables) × (j < most_variables) }
        ensures value { result ≡ differ (spread_at self.now.spreads i) (spread_at self.now.spreads j) }
        ensures told { DifferTold self.now.spreads i j result }
    {
        self.spreads[i].differs(self.spreads[j])
    }

    // The different labels of the first n variables.
    #[tactic(auto, unfolding(crate::specs::Spreads::spread_below))]
    pub fn spread(&self, n: usize) -> Spread
        requires { n ≤ most_variables }
        ensures { result ≡ spread_below n self.now.spreads }
    {
        self.spreads[..n]
            .iter()
            .fold(Spread::Nothing, |all, one| all.with(*one))
    }
}
