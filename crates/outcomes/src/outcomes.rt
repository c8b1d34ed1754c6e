// The outcome of a check, and its number.
ghost use Rattle.std.specs.Prelude.{◌≡◌};
ghost use Rattle.outcomes.specs.Outcomes.{pack, packed};

use sheet::{Fault, Variable};

#[derive(Clone, Copy, Debug, PartialEq, Eq)]
pub enum Outcome {
    // how many facts i ≤ j, and how many i ~ j
    Consistent(u16, u16),
    // the first pair that clashes
    Clash(Variable, Variable),
    // the fault, and the offset that is told
    Refused(Fault, u16),
}

// Kind and two numbers as one: the number that C gets.
#[tactic(auto, unfolding(crate::specs::Outcomes::pack))]
fn pack(kind: u8, first: u16, second: u16) -> u64
    ensures { result ≡ pack kind first second }
{
    u64::from(kind) + (256 * u64::from(first) + 16777216 * u64::from(second))
}

// The number that C callers get.
impl From<Outcome> for u64 {
    ghost from_gives = { λ outcome number. number ≡ packed outcome };

    #[tactic(auto, unfolding(crate::specs::Outcomes::packed))]
    fn from(outcome: Outcome) -> u64 {
        match outcome {
            Outcome::Consistent(orderings, compatibilities) => pack(0, orderings, compatibilities),
            Outcome::Clash(i, j) => pack(1, u16::from(i.0), u16::from(j.0)),
            Outcome::Refused(fault, at) => pack(2, u16::from(u8::from(fault)), at),
        }
    }
}

impl Outcome {
    // The same, by its name.
    pub fn packed(self) -> u64
        ensures { result ≡ packed self }
    {
        u64::from(self)
    }
}
