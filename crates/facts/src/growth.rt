// A table that grows, and the queue of its changed cells: each cell that changes is queued.
ghost use Rattle.std.specs.Prelude.{length, replicate, ◌≡◌};
ghost use Rattle.rules.specs.Tables.{cell_at};
ghost use Rattle.table.specs.Cells.{Cell};
ghost use Rattle.facts.specs.Additions.{Said, Added};
ghost use Rattle.facts.specs.Growth.{state_of, with_table, IsSame};
ghost use Rattle.facts.specs.Insertion.{Taking, TakingRow, TakingRows, Sides, RowTaken, RowsTaken};

use fields::MOST_VARIABLES;
use rules::Kind;
use table::{Kinds, NEITHER, Queue, Table, push, store};

// The bytes of a table of n variables, and the pairs whose cells changed.
// No fact of its own that the bytes are square: they change, and each change would have to show it again; `Cell` asks it.
#[derive(Drop)]
pub struct Growth<'a> {
    pub cells: &'a mut [u8],
    pub n: usize,
    pub queue: &'a mut Queue,
}

// The cells of another table, one after another. No `copy_from_slice`: that is C's memmove, which nothing else in the library
// needs from those who link it.
fn copy_cells(from: &[u8], to: &mut [u8])
    requires { length from.now ≡ length to.old }
    ensures { to.new ≡ from.now }
{
    for at in 0..to.len() {
        to[at] = from[at];
    }
}

impl Growth<'_> {
    // The cell of i and j.
    pub fn look(&self, i: usize, j: usize) -> Kinds
        requires { Cell self.now.n self.now.cells.now i j }
        ensures { result.0 ≡ cell_at self.now.n self.now.cells.now i j }
    {
        let table = Table {
            cells: self.cells,
            n: self.n,
        };
        table.look(i, j)
    }

    // No facts at all.
    pub fn clear(&mut self)
        ensures { self.new ≡ with_table self.old (replicate (length self.old.cells.now) 0) }
    {
        self.cells.fill(0);
    }

    // The facts of another table of the same size.
    pub fn copy_from(&mut self, other: &Table)
        requires { length other.now.cells.now ≡ length self.old.cells.now }
        ensures { self.new ≡ with_table self.old other.now.cells.now }
    {
        copy_cells(other.cells, self.cells);
    }

    // Adds what w says to the cell of x and y.
    #[tactic(auto, using(crate::proofs::Inserting::lacking))]
    pub(crate) fn take_cell(&mut self, w: Kinds, x: usize, y: usize)
        requires { Taking self.old.n (state_of self.old) w.0 x y }
        ensures added { Added self.old.n (Said w.0 x y) (state_of self.old) (state_of self.new) }
        ensures same { IsSame self.old self.new }
    {
        let old = self.look(x, y);
        if old.lacks(w) {
            store(self.cells, self.n, x, y, old.with(w));
            push(self.queue, x, y);
        }
    }

    // Adds w at x and y, and ~ on both sides.
    #[tactic(auto, using(table::proofs::Saying::by_number))]
    fn take_pair(&mut self, w: Kinds, x: usize, y: usize)
        requires { Taking self.old.n (state_of self.old) w.0 x y }
        ensures added { Added self.old.n (Sides w.0 x y) (state_of self.old) (state_of self.new) }
        ensures same { IsSame self.old self.new }
    {
        if w != NEITHER {
            self.take_cell(w, x, y);
        }
        if w.says(Kind::Compatible) {
            self.take_cell(Kinds::from(Kind::Compatible), y, x);
        }
    }

    // x takes a row.
    fn take_row(&mut self, x: usize, row: &[Kinds; MOST_VARIABLES])
        requires { TakingRow self.old.n (state_of self.old) row.now x }
        ensures added { Added self.old.n (RowTaken self.old.n row.now x)
            (state_of self.old) (state_of self.new) }
        ensures same { IsSame self.old self.new }
    {
        // a growth of its own: what it lends is kept in registers while it takes the row
        let (cells, n, queue) = (&mut *self.cells, self.n, &mut *self.queue);
        let mut growth = Growth { cells, n, queue };
        for y in 0..growth.n {
            growth.take_pair(row[y], x, y);
        }
    }

    // Each variable that the column marks takes the row. Fixed memory, with no heap: the first n of both are in use.
    pub(crate) fn take_rows(
        &mut self,
        column: &[bool; MOST_VARIABLES],
        row: &[Kinds; MOST_VARIABLES],
    )
        requires { TakingRows self.old.n (state_of self.old) row.now }
        ensures added { Added self.old.n (RowsTaken self.old.n column.now row.now)
            (state_of self.old) (state_of self.new) }
        ensures same { IsSame self.old self.new }
    {
        for x in 0..self.n {
            if column[x] {
                self.take_row(x, row);
            }
        }
    }
}
