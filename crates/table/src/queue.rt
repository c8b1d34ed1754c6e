// The queue of pairs whose cells changed: an entry for each change.
ghost use Rattle.std.specs.Prelude.{◌<◌, length, ◌++◌, ◌∷◌, [], ◌≡◌};
ghost use Rattle.fields.specs.Limits.{most_variables};
ghost use Rattle.table.specs.Queue.{entry, queue_room};

use arrayvec::ArrayVec;
use fields::{MOST_VARIABLES, Variable};

// A place for each fact of both kinds, and for the pairs of both kinds that a selection on trial queues.
pub const ROOM: usize = 2 * MOST_VARIABLES * MOST_VARIABLES + 2 * MOST_VARIABLES;

// Not a Clash: an entry is any pair whose cell changed.
#[derive(Clone, Copy, Default)]
pub struct Entry {
    pub first: Variable,
    pub second: Variable,
}

// The pairs whose children are still to be looked at.
pub type Queue = ArrayVec<Entry, ROOM>;

// One more entry. Narrowed by `as`: that a variable is below 128 is required.
pub fn push(queue: &mut Queue, x: usize, y: usize)
    requires room { length queue.old.items < queue_room }
    requires first { x < most_variables }
    requires second { y < most_variables }
    ensures { queue.new.items ≡ queue.old.items ++ entry x y ∷ [] }
{
    queue.push(Entry {
        first: Variable(x as u8),
        second: Variable(y as u8),
    });
}
