// Trials: whether one statement more would clash. The closed table, the growth and the groups are three parameters: what
// becomes of lent bytes is known for the fields of one struct, not for those of a struct within it. What is on trial comes
// out of a statement, so its kind, variables or child are parameters of their own.
ghost use Rattle.std.specs.Prelude.{◌*◌, ◌≡◌};
ghost use Rattle.rules.specs.Tables.{kind_cell};
ghost use Rattle.facts.specs.Additions.{Said};
ghost use Rattle.facts.specs.Growth.{IsSame};
ghost use Rattle.selections.specs.Groups.{Grouped};
ghost use Rattle.closure.specs.Making.{table_of, spreads_of};
ghost use Rattle.closure.specs.Trials.{TryingFact, TryingSelection, Tries, Restored, Queueing};
ghost use Rattle.closure.specs.Trials.{SubjectQueued, Searching, EntryTold, Sought, QueueTold, Searched};
ghost use Rattle.closure.specs.Trials.{WithOne, Nothing, Standing, Consistent, Tried, IsCopy, Asking};

use crate::closed::Closed;
use answers::label_clashes;
use derivation::run;
use facts::Growth;
use fields::Variable;
use items::Statement;
use labels::Labels;
use rules::Kind;
use selections::{Child, Groups};
use table::{Entry, Kinds, push};

// Adds to a closed table a fact of i and j, and all that follows.
fn try_fact(growth: &mut Growth, groups: &Groups, kind: Kind, i: usize, j: usize)
    requires { TryingFact growth.old.n growth.old.cells.now groups.now i j }
    ensures tries { Tries growth.old.n (Grouped groups.now) (Said (kind_cell kind) i j)
        growth.old.cells.now growth.new.cells.now growth.new.queue.now.items 0 }
    ensures same { IsSame growth.old growth.new }
{
    growth.queue.clear();
    growth.insert(Kinds::from(kind), i, j);
    run(growth, groups);
}

// Queues each pair that i is in: those with i as first variable, then the others. With both pushed in one turn a selection on
// trial took a tenth longer where there are 128 variables, and half as long again where there are 16.
fn queue_subject(growth: &mut Growth, i: usize)
    requires { Queueing growth.old.n i growth.old.queue.now.items }
    ensures queued { SubjectQueued growth.old.n i growth.old.n growth.new.queue.now.items }
    ensures table { growth.new.cells.now ≡ growth.old.cells.now }
    ensures same { IsSame growth.old growth.new }
{
    for x in 0..growth.n {
        push(growth.queue, i, x);
    }
    for y in 0..growth.n {
        push(growth.queue, y, i);
    }
}

// Adds to a closed table all that follows with a child of i: the first 2 × n entries are the pairs of i.
fn try_selection(growth: &mut Growth, groups: &mut Groups, i: usize, child: Child)
    requires { TryingSelection growth.old.n growth.old.cells.now groups.old i child.variable.0 }
    ensures tries { Tries growth.old.n
        (WithOne (Grouped groups.old) i child.feature.0 child.variable.0)
        Nothing growth.old.cells.now growth.new.cells.now growth.new.queue.now.items (2 * growth.old.n) }
    ensures same { IsSame growth.old growth.new }
    ensures grouped { groups.new ≡ groups.old }
{
    let kept = groups.put(i, child);
    growth.queue.clear();
    queue_subject(growth, i);
    run(growth, groups);
    groups.take_out(i, kept);
}

// Whether an entry's variables are compatible and have different labels.
fn clashes_at(growth: &Growth, labels: &Labels, entry: Entry) -> bool
    requires { Searching growth.now.n growth.now.cells.now entry }
    ensures { EntryTold growth.now.n growth.now.cells.now labels.now.spreads entry result }
{
    let i = entry.first.index();
    let j = entry.second.index();
    growth.look(i, j).says(Kind::Compatible) && labels.differ(i, j)
}

// Whether such an entry is in the queue, from one place on: the last is looked at first, as it followed last.
fn clash_queued(growth: &Growth, labels: &Labels, from: usize) -> bool
    requires { Sought growth.now.n growth.now.cells.now growth.now.queue.now.items from }
    ensures { QueueTold growth.now.n growth.now.cells.now labels.now.spreads growth.now.queue.now.items from result }
{
    growth.queue[from..]
        .iter()
        .rev()
        .any(|entry| clashes_at(growth, labels, *entry))
}

// Whether a fact on trial clashes, tried in a copy of the closed table.
fn fact_clashes(
    closed: &Closed,
    growth: &mut Growth,
    groups: &Groups,
    kind: Kind,
    i: Variable,
    j: Variable,
) -> bool
    requires trying { TryingFact growth.old.n growth.old.cells.now groups.now i.0 j.0 }
    requires copy { IsCopy closed.now growth.old }
    ensures searched { Searched growth.old.n (Grouped groups.now) (Said (kind_cell kind) i.0 j.0)
        (table_of closed.now) (spreads_of closed.now) result }
    ensures restored { Restored growth.old growth.new groups.now groups.now }
{
    try_fact(growth, groups, kind, i.index(), j.index());
    let found = clash_queued(growth, closed.labels, 0);
    growth.restore(closed.table, 0);
    found
}

// Whether a selection on trial clashes, tried in a copy of the closed table.
fn selection_clashes(
    closed: &Closed,
    growth: &mut Growth,
    groups: &mut Groups,
    i: Variable,
    child: Child,
) -> bool
    requires trying { TryingSelection growth.old.n growth.old.cells.now groups.old i.0 child.variable.0 }
    requires copy { IsCopy closed.now growth.old }
    ensures searched { Searched growth.old.n
        (WithOne (Grouped groups.old) i.0 child.feature.0 child.variable.0)
        Nothing (table_of closed.now) (spreads_of closed.now) result }
    ensures restored { Restored growth.old growth.new groups.old groups.new }
{
    try_selection(growth, groups, i.index(), child);
    let from = 2 * growth.n;
    let found = clash_queued(growth, closed.labels, from);
    growth.restore(closed.table, from);
    found
}

// Whether a statement on trial clashes with statements that do not clash.
fn try_statement(closed: &Closed, growth: &mut Growth, groups: &mut Groups, q: Statement) -> bool
    requires asking { Asking closed.now growth.old groups.old q }
    ensures tried { Tried growth.old.n
        (Consistent growth.old.n (table_of closed.now) groups.old (spreads_of closed.now)) q result }
    ensures restored { Restored growth.old growth.new groups.old groups.new }
{
    match q {
        Statement::Ordering(i, j) => fact_clashes(closed, growth, groups, Kind::Ordered, i, j),
        Statement::Compatibility(i, j) => {
            fact_clashes(closed, growth, groups, Kind::Compatible, i, j)
        }
        Statement::Selection(i, feature, variable) => {
            selection_clashes(closed, growth, groups, i, Child { feature, variable })
        }
        Statement::Labelling(i, a) => label_clashes(closed.table, closed.labels, i.index(), a),
    }
}

// The same, tried only where two labels differ at all.
fn try_where_labels_differ(
    closed: &Closed,
    growth: &mut Growth,
    groups: &mut Groups,
    q: Statement,
) -> bool
    requires asking { Asking closed.now growth.old groups.old q }
    ensures tried { Tried growth.old.n
        (Consistent growth.old.n (table_of closed.now) groups.old (spreads_of closed.now)) q result }
    ensures restored { Restored growth.old growth.new groups.old groups.new }
{
    closed.spread.can_clash(q) && try_statement(closed, growth, groups, q)
}

// Whether closed statements clash with q behind them, tried in a copy of their table.
pub fn trial(closed: &Closed, growth: &mut Growth, groups: &mut Groups, q: Statement) -> bool
    requires asking { Asking closed.now growth.old groups.old q }
    ensures tried { Tried growth.old.n
        (Standing growth.old.n (table_of closed.now) groups.old (spreads_of closed.now)) q result }
    ensures restored { Restored growth.old growth.new groups.old groups.new }
{
    closed.clash.is_some() || try_where_labels_differ(closed, growth, groups, q)
}
