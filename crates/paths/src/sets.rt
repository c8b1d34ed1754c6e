// Sets of variables, and the step from one to the next by a feature.
ghost use Rattle.std.specs.Prelude.{◌<◌};
ghost use Rattle.rules.specs.Connectives.{◌or◌};
ghost use Rattle.rules.specs.Tables.{facts};
ghost use Rattle.rules.specs.declared.kinds.Kind.{Kind};
ghost use Rattle.rows.specs.Rows.{in_row, Members};
ghost use Rattle.selections.specs.Listed.{Selections};
ghost use Rattle.answers.specs.Supports.{IsSelection};
ghost use Rattle.paths.specs.Sets.{Transitive, Downward, ChildAdded, Stepped};

use answers::has_fact;
use fields::Feature;
use rows::{Row, has_member, none, with};
use rules::Kind;
use selections::Selection;
use table::Table;

// A set, and all that is ≤ j.
pub(crate) fn with_below(table: &Table, set: Row, j: usize) -> Row
    requires { j < table.now.n }
    ensures { Members result (λ k. facts table.now.n table.now.cells.now Kind.Ordered k j or in_row set k) }
{
    let mut row = set;
    for k in 0..table.n {
        if has_fact(table, Kind::Ordered, k, j) {
            let more = with(row, k);
            row = more;
        }
    }
    row
}

// A set with what a selection adds that leads on from another: its child, and all that is ≤ it. If the child is there
// already, so is that.
fn with_child(table: &Table, set: Row, feature: Feature, selection: &Selection, next: Row) -> Row
    requires lawful { IsSelection table.now.n selection.now }
    requires downward { Downward (facts table.now.n table.now.cells.now) next }
    ensures { ChildAdded (facts table.now.n table.now.cells.now) feature.0 set selection.now next result }
{
    let child = selection.child.index();
    if feature == selection.feature
        && has_member(set, selection.subject.index())
        && !has_member(next, child)
    {
        with_below(table, next, child)
    } else {
        next
    }
}

// From a set by a feature: the children at it of the set's variables, and all that is ≤ one of these.
pub(crate) fn step(table: &Table, list: &[Selection], set: Row, feature: Feature) -> Row
    requires selections { Selections table.now.n list.now }
    requires transitive { Transitive (facts table.now.n table.now.cells.now) }
    ensures { Stepped table.now.n (facts table.now.n table.now.cells.now) list.now feature.0 set result }
{
    let mut next = none();
    for selection in list {
        let more = with_child(table, set, feature, selection, next);
        next = more;
    }
    next
}
