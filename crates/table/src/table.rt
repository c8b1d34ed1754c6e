// The fact table: a cell for two variables, in bytes that are lent. Only this file knows where a cell stands.
ghost use Rattle.std.specs.Prelude.{◌+◌, ◌*◌, ◌<◌, ◌≤◌, length, ◌≡◌};
ghost use Rattle.fields.specs.Limits.{most_variables};
ghost use Rattle.rules.specs.Tables.{cell_at};
ghost use Rattle.table.specs.Cells.{Cell, with_cell};

use crate::cells::Kinds;

// The lent bytes as they are read, and of how many variables they are the table.
#[derive(Clone, Copy)]
pub struct Table<'a> {
    pub cells: &'a [u8],
    pub n: usize,
    // there are not too many, and each two have a cell
    pub ghost few: { n ≤ most_variables },
    pub ghost square: { length cells.now ≡ n * n },
}

// Where the cell of i and j stands.
fn place(n: usize, i: usize, j: usize) -> usize
    requires { (n ≤ most_variables) × ((i < n) × (j < n)) }
    ensures { result ≡ i * n + j }
{
    i * n + j
}

impl Table<'_> {
    // The cell of i and j.
    #[tactic(auto, unfolding(rules::specs::Tables::cell_at))]
    pub fn look(&self, i: usize, j: usize) -> Kinds
        requires { (i < self.now.n) × (j < self.now.n) }
        ensures { result.0 ≡ cell_at self.now.n self.now.cells.now i j }
    {
        let at = place(self.n, i, j);
        Kinds(self.cells[at])
    }
}

// Another cell for i and j. On the bytes alone: a struct of the bytes to write would stand within a growth, and what
// becomes of lent bytes is known for the fields of one struct.
#[tactic(auto, unfolding(crate::specs::Cells::with_cell))]
pub fn store(cells: &mut [u8], n: usize, i: usize, j: usize, kinds: Kinds)
    requires { Cell n cells.old i j }
    ensures { cells.new ≡ with_cell n cells.old i j kinds.0 }
{
    let at = place(n, i, j);
    cells[at] = kinds.0;
}
