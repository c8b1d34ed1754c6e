// The verdict on a sheet, by the words of the format. `Option<Clash>`, of which it is made, says whether two labels clash; as
// a verdict it would be no plainer: where outcome, second table and replies go by it, a line would have to say what none is.
ghost use Rattle.std.specs.Prelude.{◌≡◌};
ghost use Rattle.rules.specs.Verdicts.{verdict_by};

use crate::clashes::Clash;

#[derive(Clone, Copy, Debug, PartialEq, Eq)]
pub enum Verdict {
    Consistent,
    // the pair that clashes
    Clash(Clash),
}

// The verdict where this is the first clash, if there is one.
impl From<Option<Clash>> for Verdict {
    ghost from_gives = { λ clash verdict. verdict ≡ verdict_by clash };

    fn from(clash: Option<Clash>) -> Verdict {
        match clash {
            None => Verdict::Consistent,
            Some(clash) => Verdict::Clash(clash),
        }
    }
}
