// A selection on trial: put at the free place behind a group, and taken out again.
ghost use Rattle.std.specs.Prelude.{◌<◌, ◌≡◌};
ghost use Rattle.fields.specs.Limits.{most_variables};
ghost use Rattle.selections.specs.Groups.{group_places};
ghost use Rattle.selections.specs.Trial.{Room, Put, without};

use crate::grouped::{Child, Groups};

// The place that a selection on trial took, and what stood there.
#[derive(Clone, Copy)]
pub struct Kept {
    pub at: usize,
    pub child: Child,
}

impl Groups {
    // Adds a child at the place behind the group of i, and says what stood there.
    pub fn put(&mut self, i: usize, child: Child) -> Kept
        requires { Room i self.old }
        ensures { Put i child self.old self.new result }
    {
        let at = self.groups[i].end;
        let kept = Kept {
            at,
            child: self.children[at],
        };
        self.children[at] = child;
        self.groups[i].end = at + 1;
        kept
    }

    // Takes the selection on trial out of the group of i.
    pub fn take_out(&mut self, i: usize, kept: Kept)
        requires { (i < most_variables) × (kept.at < group_places) }
        ensures { self.new ≡ without i kept self.old }
    {
        let at = kept.at;
        self.groups[i].end = at;
        self.children[at] = kept.child;
    }
}
