// How many different labels are stated: where there are fewer than two, nothing can clash.
ghost use Rattle.std.specs.Prelude.{◌≡◌};
ghost use Rattle.labels.specs.Spreads.{has_any, is_several, only_label, has_other, differ, with_labels, can_clash};

use fields::Label;
use items::Statement;

// The different labels that are stated: of one variable, or of several.
#[derive(Clone, Copy, Default, Debug, PartialEq, Eq)]
pub enum Spread {
    #[default]
    Nothing,
    One(Label),
    Several,
}

impl Spread {
    // Whether there is a label.
    pub fn has_any(self) -> bool
        ensures { result ≡ has_any self }
    {
        !matches!(self, Spread::Nothing)
    }

    // Whether there are labels that differ.
    pub fn is_several(self) -> bool
        ensures { result ≡ is_several self }
    {
        matches!(self, Spread::Several)
    }

    // The one label, if there is just one.
    pub fn only(self) -> Option<Label>
        ensures { result ≡ only_label self }
    {
        match self {
            Spread::One(a) => Some(a),
            _ => None,
        }
    }

    // Whether there is a label other than a.
    #[tactic(auto, unfolding(fields::specs::Tests::same))]
    pub fn has_other(self, a: Label) -> bool
        ensures { result ≡ has_other self a.0 }
    {
        match self {
            Spread::Nothing => false,
            Spread::One(b) => b != a,
            Spread::Several => true,
        }
    }

    // Whether some label of both differ.
    pub fn differs(self, other: Spread) -> bool
        ensures { result ≡ differ self other }
    {
        match self {
            Spread::Nothing => false,
            Spread::One(a) => other.has_other(a),
            Spread::Several => other.has_any(),
        }
    }

    // The labels of both.
    #[tactic(auto, unfolding(crate::specs::Spreads::with_labels, fields::specs::Tests::pick, fields::specs::Tests::same))]
    pub fn with(self, other: Spread) -> Spread
        ensures { result ≡ with_labels self other }
    {
        match (self, other) {
            (Spread::Nothing, _) => other,
            (_, Spread::Nothing) => self,
            (Spread::One(a), Spread::One(b)) if a == b => self,
            _ => Spread::Several,
        }
    }

    // Whether two different labels are stated where the question is stated too.
    pub fn can_clash(self, q: Statement) -> bool
        ensures { result ≡ can_clash self q }
    {
        match q {
            Statement::Labelling(_, b) => self.has_other(b),
            _ => self.is_several(),
        }
    }
}
