// How many facts the table has.
ghost use Rattle.std.specs.Prelude.{◌<◌, ◌≡◌};
ghost use Rattle.rules.specs.Tables.{facts, count_facts};
ghost use Rattle.answers.specs.Counts.{RowCount};

use crate::cells::has_fact;
use rules::Kind;
use table::Table;

// The facts of the kind in row i. No `filter`: with it a check of 128 variables and no record took three times as long, since
// the compiler then looks at one cell a turn.
fn count_row(table: &Table, kind: Kind, i: usize) -> usize
    requires { i < table.now.n }
    ensures { RowCount table.now.n table.now.cells.now kind i result }
{
    (0..table.n)
        .map(|j| usize::from(has_fact(table, kind, i, j)))
        .sum()
}

// The facts of the kind in all rows.
#[tactic(auto, unfolding(rules::specs::Tables::count_rows, rules::specs::Tables::count_facts))]
pub fn count_facts(table: &Table, kind: Kind) -> usize
    ensures { result ≡ count_facts table.now.n (facts table.now.n table.now.cells.now) kind }
{
    (0..table.n).map(|i| count_row(table, kind, i)).sum()
}
