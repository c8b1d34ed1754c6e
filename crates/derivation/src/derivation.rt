// Derivation: all that the rules give from stated pairs and selections.
ghost use Rattle.std.specs.Prelude.{◌*◌, length, ◌≡◌};
ghost use Rattle.facts.specs.Additions.{Steps};
ghost use Rattle.facts.specs.Growth.{state_of, IsSame};
ghost use Rattle.derivation.specs.Stands.{Paired, InsertingPairs, Deriving, DerivedFrom};

use crate::descent::run;
use crate::pairs::Pair;
use facts::Growth;
use selections::Groups;

// Inserts what each stated pair says.
fn insert_pairs(growth: &mut Growth, pairs: &[Pair])
    requires { InsertingPairs growth.old.n (state_of growth.old) pairs.now }
    ensures steps { Steps growth.old.n (Paired pairs.now) (state_of growth.old) (state_of growth.new) }
    ensures same { IsSame growth.old growth.new }
{
    for pair in pairs {
        growth.insert(pair.kinds, pair.left.index(), pair.right.index());
    }
}

// Fills the table with all facts that follow from the stated pairs and the selections.
pub fn derive(growth: &mut Growth, pairs: &[Pair], groups: &Groups)
    requires square { length growth.old.cells.now ≡ growth.old.n * growth.old.n }
    requires lawful { Deriving growth.old.n pairs.now groups.now }
    ensures derived_from { DerivedFrom growth.old.n pairs.now groups.now growth.new.cells.now }
    ensures same { IsSame growth.old growth.new }
{
    growth.clear();
    growth.queue.clear();
    growth.insert_reflexive();
    insert_pairs(growth, pairs);
    run(growth, groups);
}
