// The way back: a table that grew is made the one again that it grew from.
ghost use Rattle.std.specs.Prelude.{◌≡◌};
ghost use Rattle.facts.specs.Growth.{state_of, IsSame};
ghost use Rattle.facts.specs.Restoring.{Restoring};

use crate::growth::Growth;
use table::{Table, store};

impl Growth<'_> {
    // Gives each pair of the queue, from one place on, its cell of the other table.
    fn restore_queued(&mut self, other: &Table, from: usize)
        requires sizes { other.now.n ≡ self.old.n }
        requires restoring { Restoring self.old.n other.now.cells.now (state_of self.old) from }
        ensures table { self.new.cells.now ≡ other.now.cells.now }
        ensures queue { self.new.queue.now.items ≡ self.old.queue.now.items }
        ensures same { IsSame self.old self.new }
    {
        for entry in &self.queue[from..] {
            let x = entry.first.index();
            let y = entry.second.index();
            store(self.cells, self.n, x, y, other.look(x, y));
        }
    }

    // Makes the table the other one again: by the queue where that is short, else as a whole.
    pub fn restore(&mut self, other: &Table, from: usize)
        requires sizes { other.now.n ≡ self.old.n }
        requires restoring { Restoring self.old.n other.now.cells.now (state_of self.old) from }
        ensures table { self.new.cells.now ≡ other.now.cells.now }
        ensures queue { self.new.queue.now.items ≡ self.old.queue.now.items }
        ensures same { IsSame self.old self.new }
    {
        if (self.queue.len() - from) * 32 < self.n * self.n {
            self.restore_queued(other, from);
        } else {
            self.copy_from(other);
        }
    }
}
