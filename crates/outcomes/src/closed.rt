// The outcome that a closed table tells.
ghost use Rattle.std.specs.Prelude.{◌≡◌};
ghost use Rattle.rules.specs.Tables.{facts};
ghost use Rattle.outcomes.specs.Closed.{outcome_by};

use crate::outcomes::Outcome;
use answers::count_facts;
use rules::{Kind, Verdict};
use table::Table;

// How many facts the table has of each kind, or the pair that clashes in it.
#[tactic(auto, using(crate::proofs::Counted::few_facts))]
pub fn outcome_of(verdict: Verdict, closed: &Table) -> Outcome
    ensures { result ≡ outcome_by closed.now.n (facts closed.now.n closed.now.cells.now) verdict }
{
    match verdict {
        Verdict::Clash(clash) => Outcome::Clash(clash.first, clash.second),
        Verdict::Consistent => {
            // narrowed by `as`: there are 16,384 pairs at most
            let orderings = count_facts(closed, Kind::Ordered);
            let compatibilities = count_facts(closed, Kind::Compatible);
            Outcome::Consistent(orderings as u16, compatibilities as u16)
        }
    }
}
