// What a cell of the table says of two variables: a set of kinds, as the byte that C is lent, 1 for ≤ plus 2 for ~.
ghost use Rattle.std.specs.Prelude.{◌≡◌};
ghost use Rattle.std.specs.Int.Bits.{bit_or};
ghost use Rattle.rules.specs.Tables.{says, kind_cell};
ghost use Rattle.table.specs.Cells.{is_lacking};

use rules::Kind;

#[derive(Clone, Copy, Debug, Default, PartialEq, Eq)]
pub struct Kinds(pub u8);

// Neither ≤ nor ~.
pub const NEITHER: Kinds = Kinds(0);

// ≤ and ~.
pub const BOTH: Kinds = Kinds(3);

// One kind alone.
impl From<Kind> for Kinds {
    ghost from_gives = { λ kind kinds. kinds.0 ≡ kind_cell kind };

    fn from(kind: Kind) -> Kinds {
        match kind {
            Kind::Ordered => Kinds(1),
            Kind::Compatible => Kinds(2),
        }
    }
}

impl Kinds {
    // Whether the kind is among these.
    #[inline]
    #[tactic(auto, using(crate::proofs::Saying::by_number))]
    pub fn says(self, kind: Kind) -> bool
        ensures { result ≡ says kind self.0 }
    {
        match kind {
            Kind::Ordered => self.0 == 1 || self.0 == 3,
            Kind::Compatible => 1 < self.0,
        }
    }

    // Whether one of the others is not among these.
    #[tactic(auto, unfolding(crate::specs::Cells::is_lacking, fields::specs::Tests::same))]
    pub fn lacks(self, others: Kinds) -> bool
        ensures { result ≡ is_lacking self.0 others.0 }
    {
        self.0 | others.0 != self.0
    }

    // These and the others.
    pub fn with(self, others: Kinds) -> Kinds
        ensures { result.0 ≡ bit_or self.0 others.0 }
    {
        Kinds(self.0 | others.0)
    }
}
