// What a path leads to, and what is told of it.
ghost use Rattle.std.specs.Prelude.{◌<◌, ◌≤◌, ◌≡◌};
ghost use Rattle.fields.specs.Limits.{most_variables, most_features};
ghost use Rattle.items.specs.Paths.{features_in};
ghost use Rattle.rules.specs.Tables.{facts};
ghost use Rattle.selections.specs.Listed.{Selections};
ghost use Rattle.rows.specs.Rows.{in_row};
ghost use Rattle.answers.specs.Roots.{label_from};
ghost use Rattle.paths.specs.Sets.{Transitive};
ghost use Rattle.paths.specs.Walks.{Walked, PathTold, LabelTold};

use crate::sets::{step, with_below};
use fields::{Feature, Label, MOST_FEATURES, Variable};
use labels::Labels;
use rows::{Row, has_member, none, some};
use selections::Selection;
use table::Table;

// The variables that a path leads to from i, by its first features.
fn walk(
    table: &Table,
    list: &[Selection],
    i: usize,
    path: [Feature; MOST_FEATURES],
    count: usize,
) -> Row
    requires variable { i < table.now.n }
    requires features { count ≤ most_features }
    requires selections { Selections table.now.n list.now }
    requires transitive { Transitive (facts table.now.n table.now.cells.now) }
    ensures { Walked table.now.n (facts table.now.n table.now.cells.now) list.now i (features_in count path) result }
{
    let mut set = with_below(table, none(), i);
    for k in 0..count {
        let next = step(table, list, set, path[k]);
        set = next;
    }
    set
}

// Whether i has the path of these features.
pub fn has_path(
    table: &Table,
    list: &[Selection],
    i: Variable,
    path: [Feature; MOST_FEATURES],
    count: u8,
) -> bool
    requires variable { i.0 < table.now.n }
    requires features { count ≤ most_features }
    requires selections { Selections table.now.n list.now }
    requires transitive { Transitive (facts table.now.n table.now.cells.now) }
    ensures { PathTold table.now.n table.now.cells.now list.now i.0 (features_in count path) result }
{
    some(walk(table, list, i.index(), path, usize::from(count)))
}

// The one label of k, where it is in the set.
#[tactic(auto, unfolding(fields::specs::Tests::pick))]
fn label_of(labels: &Labels, set: Row, k: usize) -> Option<Label>
    requires { k < most_variables }
    ensures { result ≡ label_from (in_row set) labels.now.spreads k }
{
    if has_member(set, k) {
        labels.spreads[k].only()
    } else {
        None
    }
}

// The label that is stated of what the path leads to, where nothing clashes.
pub fn path_label(
    table: &Table,
    list: &[Selection],
    labels: &Labels,
    i: Variable,
    path: [Feature; MOST_FEATURES],
    count: u8,
) -> Option<Label>
    requires variable { i.0 < table.now.n }
    requires features { count ≤ most_features }
    requires selections { Selections table.now.n list.now }
    requires transitive { Transitive (facts table.now.n table.now.cells.now) }
    ensures { LabelTold table.now.n table.now.cells.now list.now labels.now.spreads i.0 (features_in count path) result }
{
    let set = walk(table, list, i.index(), path, usize::from(count));
    (0..table.n).find_map(|k| label_of(labels, set, k))
}
