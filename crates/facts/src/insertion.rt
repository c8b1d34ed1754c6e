// Insertion of a fact: the table stays closed under F1 and F3.
ghost use Rattle.std.specs.Prelude.{◌<◌, ◌≡◌};
ghost use Rattle.table.specs.Cells.{Cell};
ghost use Rattle.table.specs.Queue.{Ready};
ghost use Rattle.facts.specs.Additions.{Said, Among, Added, Steps};
ghost use Rattle.facts.specs.Growth.{state_of, IsSame};
ghost use Rattle.facts.specs.Insertion.{Inserting};
ghost use Rattle.facts.specs.Insertion.{mark_of, cell_taken_at, Columns, Rows, Looking};

use crate::growth::Growth;
use fields::MOST_VARIABLES;
use rules::Kind;
use table::{BOTH, Kinds, NEITHER};

impl Growth<'_> {
    // Whether x is below u and lacks w at v. No `Pair` for w, u and v, though insert and all it calls are handed the three:
    // its variables would narrow what insert takes, which is any number.
    #[tactic(auto, using(crate::proofs::Inserting::marks))]
    fn mark(&self, w: Kinds, u: usize, v: usize, x: usize) -> bool
        requires below { Cell self.now.n self.now.cells.now x u }
        requires lacking { Cell self.now.n self.now.cells.now x v }
        ensures { result ≡ mark_of self.now.n self.now.cells.now w.0 u v x }
    {
        self.look(x, u).says(Kind::Ordered) && self.look(x, v).lacks(w)
    }

    // Marks what is below u and lacks w at v. Fixed memory, with no heap: the first n are in use, here and in the row.
    fn read_column(&self, w: Kinds, u: usize, v: usize) -> [bool; MOST_VARIABLES]
        requires { Looking self.now.n self.now.cells.now u v }
        ensures { Columns self.now.n self.now.cells.now w.0 u v result }
    {
        let mut column = [false; MOST_VARIABLES];
        for x in 0..self.n {
            column[x] = self.mark(w, u, v, x);
        }
        column
    }

    // The cell at y that is taken by what is below a variable, once w holds of it and v.
    #[tactic(auto, unfolding(crate::specs::Insertion::cell_taken_at, fields::specs::Tests::pick))]
    fn taken(&self, w: Kinds, v: usize, y: usize) -> Kinds
        requires along { Cell self.now.n self.now.cells.now v y }
        requires back { Cell self.now.n self.now.cells.now y v }
        ensures { result.0 ≡ cell_taken_at self.now.n self.now.cells.now w.0 v y }
    {
        if w.says(Kind::Ordered) {
            self.look(v, y)
        } else if self.look(y, v).says(Kind::Ordered) {
            Kinds::from(Kind::Compatible)
        } else {
            NEITHER
        }
    }

    // The row that is taken so.
    fn read_row(&self, w: Kinds, v: usize) -> [Kinds; MOST_VARIABLES]
        requires { Looking self.now.n self.now.cells.now v v }
        ensures { Rows self.now.n self.now.cells.now w.0 v result }
    {
        let mut row = [NEITHER; MOST_VARIABLES];
        for y in 0..self.n {
            row[y] = self.taken(w, v, y);
        }
        row
    }

    // Adds a new fact: what w says of u and v, and all that F1 and F3 then give.
    #[tactic(auto, using(crate::proofs::Inserting::row_cells))]
    fn insert_new(&mut self, w: Kinds, u: usize, v: usize)
        requires inserting { Inserting self.old.n (state_of self.old) w.0 u v }
        requires some { 0 < w.0 }
        ensures steps { Steps self.old.n (Said w.0 u v) (state_of self.old) (state_of self.new) }
        ensures same { IsSame self.old self.new }
    {
        let column = self.read_column(w, u, v);
        let row = self.read_row(w, v);
        self.take_rows(&column, &row);
    }

    // Adds what w says of u and v, with all that F1 and F3 then give, if it is not there already.
    #[tactic(auto, using(crate::proofs::Inserting::lacking))]
    pub fn insert(&mut self, w: Kinds, u: usize, v: usize)
        requires { Inserting self.old.n (state_of self.old) w.0 u v }
        ensures steps { Steps self.old.n (Said w.0 u v) (state_of self.old) (state_of self.new) }
        ensures same { IsSame self.old self.new }
    {
        if self.look(u, v).lacks(w) {
            self.insert_new(w, u, v);
        }
    }

    // Each variable is below itself and compatible with itself: F1.1 and F3.1.
    pub fn insert_reflexive(&mut self)
        requires { Ready self.old.n (state_of self.old) }
        ensures added { Added self.old.n (Among 0 self.old.n (λ i. Said 3 i i))
            (state_of self.old) (state_of self.new) }
        ensures same { IsSame self.old self.new }
    {
        for i in 0..self.n {
            self.take_cell(BOTH, i, i);
        }
    }
}
