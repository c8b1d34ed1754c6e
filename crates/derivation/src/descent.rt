// Descent: what holds of two variables is handed down to their children at common features, by F2 and F4. Growth and
// groups are two parameters, since what becomes of lent bytes is known for the fields of one struct; what is told, of
// which child and among which places are others with each entry of the queue.
ghost use Rattle.std.specs.Prelude.{MatchOption, ◌≡◌};
ghost use Rattle.facts.specs.Additions.{Steps};
ghost use Rattle.facts.specs.Growth.{state_of, IsSame};
ghost use Rattle.selections.specs.Groups.{Grouped};
ghost use Rattle.derivation.specs.Descent.{UnderAll, HandedDown, Handing, Telling, is_new, Seeking, NoneNew, FirstNew};
ghost use Rattle.derivation.specs.Descent.{SeekingRow, NoRowNew, NextRow};
ghost use Rattle.derivation.specs.Descent.{Visiting, Visited};
ghost use Rattle.derivation.specs.Settled.{Starting, Settled};

use facts::Growth;
use selections::{Child, Groups};
use std::ops::Range;
use table::{Entry, Kinds, NEITHER, Table};

// Whether the child at a place has the same feature, and w is not told yet of the two children.
#[tactic(auto, unfolding(crate::specs::Descent::is_new, fields::specs::Tests::pick, fields::specs::Tests::same))]
fn is_new(table: &Table, groups: &Groups, w: Kinds, child: Child, at: usize) -> bool
    requires { Telling table.now.n table.now.cells.now groups.now child.variable.0 at }
    ensures { result ≡ is_new table.now.n table.now.cells.now groups.now w.0 child.feature.0 child.variable.0 at }
{
    let other = &groups.children[at];
    let i = child.variable.index();
    other.feature == child.feature && table.look(i, other.variable.index()).lacks(w)
}

// The first such place of these. A table of its own: what the growth lends is read once, and not anew at each place. No `find`:
// this is the innermost loop of all, and with it each turn took an eighth longer.
fn seek(
    growth: &Growth,
    groups: &Groups,
    w: Kinds,
    child: Child,
    places: Range<usize>,
) -> Option<usize>
    requires { Seeking growth.now.n growth.now.cells.now groups.now child.variable.0 places.start places.end }
    ensures { MatchOption result
        (NoneNew growth.now.n growth.now.cells.now groups.now w.0 child.feature.0 child.variable.0
        places.start places.end)
        (FirstNew growth.now.n growth.now.cells.now groups.now w.0 child.feature.0 child.variable.0
        places.start places.end) }
{
    let table = Table {
        cells: growth.cells,
        n: growth.n,
    };
    for at in places.start..places.end {
        if is_new(&table, groups, w, child, at) {
            return Some(at);
        }
    }
    None
}

// Tells w of a child and each child of v at the same feature. No `for` that tests and inserts: with the insertion in the
// loop that scans, sheets of many selections took 1.1 to 1.2 times as long as in C, and 0.83 to 1.02 times so.
fn tell_all(growth: &mut Growth, groups: &Groups, w: Kinds, child: Child, v: usize)
    requires { Handing growth.old.n (state_of growth.old) groups.now w.0 child.variable.0 v }
    ensures steps { Steps growth.old.n (UnderAll groups.now w.0 child.feature.0 child.variable.0 v)
        (state_of growth.old) (state_of growth.new) }
    ensures same { IsSame growth.old growth.new }
{
    let group = groups.groups[v];
    let mut from = group.start;
    while let Some(at) = seek(growth, groups, w, child, from..group.end) {
        growth.insert(
            w,
            child.variable.index(),
            groups.children[at].variable.index(),
        );
        from = at + 1;
    }
}

// The first of these rows whose child w is not told of yet with a child at the same feature, among the places.
fn seek_row(
    growth: &Growth,
    groups: &Groups,
    w: Kinds,
    rows: Range<usize>,
    places: Range<usize>,
) -> Option<usize>
    requires { SeekingRow growth.now.n growth.now.cells.now groups.now places.start places.end rows.start rows.end }
    ensures { MatchOption result
        (NoRowNew growth.now.n growth.now.cells.now groups.now w.0 places.start places.end rows.start rows.end)
        (NextRow growth.now.n growth.now.cells.now groups.now w.0 places.start places.end rows.start rows.end) }
{
    let mut rows = rows;
    rows.find(|at| {
        let child = groups.children[*at];
        seek(growth, groups, w, child, places.start..places.end).is_some()
    })
}

// Hands w down from u and v. No `for`: as in `tell_all`.
fn hand_down(growth: &mut Growth, groups: &Groups, w: Kinds, u: usize, v: usize)
    requires { Handing growth.old.n (state_of growth.old) groups.now w.0 u v }
    ensures steps { Steps growth.old.n (HandedDown groups.now w.0 u v) (state_of growth.old) (state_of growth.new) }
    ensures same { IsSame growth.old growth.new }
{
    let rows = groups.groups[u];
    let others = groups.groups[v];
    let mut from = rows.start;
    while let Some(at) = seek_row(growth, groups, w, from..rows.end, others.start..others.end) {
        tell_all(growth, groups, w, groups.children[at], v);
        from = at + 1;
    }
}

// Hands down what the table says of the two variables of an entry.
fn visit(growth: &mut Growth, groups: &Groups, entry: Entry)
    requires { Visiting growth.old.n (state_of growth.old) groups.now entry }
    ensures steps { Steps growth.old.n
        (Visited growth.old.n growth.old.cells.now groups.now entry)
        (state_of growth.old) (state_of growth.new) }
    ensures same { IsSame growth.old growth.new }
{
    let u = entry.first.index();
    let v = entry.second.index();
    let w = growth.look(u, v);
    if w != NEITHER {
        hand_down(growth, groups, w, u, v);
    }
}

// Visits the entries of the queue until there are no more. No `for`: a visit queues further ones.
pub fn run(growth: &mut Growth, groups: &Groups)
    requires { Starting growth.old.n (state_of growth.old) groups.now }
    ensures settled { Settled growth.old.n (Grouped groups.now) (state_of growth.old) (state_of growth.new) }
    ensures same { IsSame growth.old growth.new }
{
    let mut head = 0;
    while head < growth.queue.len() {
        let entry = growth.queue[head];
        visit(growth, groups, entry);
        head += 1;
    }
}
