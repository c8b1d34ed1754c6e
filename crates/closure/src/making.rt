// The derivation of stated pairs and selections, with the groups that questions are tried by.
ghost use Rattle.std.specs.Prelude.{length, ◌≡◌};
ghost use Rattle.facts.specs.Growth.{IsSame};
ghost use Rattle.closure.specs.Making.{Lawful, Made};

use derivation::{Pair, derive};
use facts::Growth;
use selections::{Groups, Selection};

// Groups the selections and fills the table with all facts that follow.
#[tactic(auto, unfolding(sheet::specs::Headers::size_for))]
pub fn make(growth: &mut Growth, groups: &mut Groups, pairs: &[Pair], selections: &[Selection])
    requires { Lawful growth.old.n pairs.now selections.now (length growth.old.cells.now) }
    ensures made { Made growth.old.n pairs.now selections.now groups.new growth.new.cells.now }
    ensures same { IsSame growth.old growth.new }
{
    groups.fill(growth.n, selections);
    derive(growth, pairs, groups);
}
