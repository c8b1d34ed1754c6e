// Whether a fact holds in the table.
ghost use Rattle.std.specs.Prelude.{◌<◌, ◌≡◌};
ghost use Rattle.rules.specs.Tables.{facts};

use rules::Kind;
use table::Table;

// Whether a fact of the kind holds of i and j.
#[tactic(auto, using(rules::proofs::Tables::fact_said))]
pub fn has_fact(table: &Table, kind: Kind, i: usize, j: usize) -> bool
    requires { (i < table.now.n) × (j < table.now.n) }
    ensures { result ≡ facts table.now.n table.now.cells.now kind i j }
{
    table.look(i, j).says(kind)
}
