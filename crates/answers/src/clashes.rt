// F5: the pair that clashes, and whether one more label would clash.
ghost use Rattle.std.specs.Prelude.{◌<◌};
ghost use Rattle.answers.specs.Clashes.{RowTold, ClashTold, LabelClashTold};

use crate::cells::has_fact;
use fields::{Label, Variable};
use labels::Labels;
use rules::{Clash, Kind};
use table::Table;

// The least column at which row i has a clash.
#[tactic(auto, using(crate::proofs::Clashed::row_unlabelled))]
fn clash_in_row(table: &Table, labels: &Labels, i: usize) -> Option<Clash>
    requires { i < table.now.n }
    ensures { RowTold table.now.n table.now.cells.now labels.now.spreads i result }
{
    if !labels.spreads[i].has_any() {
        return None;
    }
    // narrowed by `as`: row and column are below 128
    (0..table.n)
        .find(|j| has_fact(table, Kind::Compatible, i, *j) && labels.differ(i, *j))
        .map(|j| Clash {
            first: Variable(i as u8),
            second: Variable(j as u8),
        })
}

// The clash at the least row, and there at the least column.
pub fn clash_of(table: &Table, labels: &Labels) -> Option<Clash>
    ensures { ClashTold table.now.n table.now.cells.now labels.now.spreads result }
{
    (0..table.n).find_map(|i| clash_in_row(table, labels, i))
}

// Whether the label a of i would clash with a label that is stated.
pub fn label_clashes(table: &Table, labels: &Labels, i: usize, a: Label) -> bool
    requires { i < table.now.n }
    ensures { LabelClashTold table.now.n table.now.cells.now labels.now.spreads i a.0 result }
{
    (0..table.n).any(|j| has_fact(table, Kind::Compatible, i, j) && labels.has_other(j, a))
}
