// The labels that the roots of variables must have.
ghost use Rattle.std.specs.Prelude.{◌<◌, ◌≡◌};
ghost use Rattle.rules.specs.Tables.{facts};
ghost use Rattle.rules.specs.declared.kinds.Kind.{Kind};
ghost use Rattle.answers.specs.Roots.{label_from, BelowTold, Filling, RootsTold};

use crate::cells::has_fact;
use crate::clashes::clash_of;
use fields::Label;
use labels::{Labels, RootLabels};
use rules::{Kind, Verdict};
use table::Table;

// The one label of k, where k ≤ i.
#[tactic(auto, unfolding(fields::specs::Tests::pick))]
fn label_from(table: &Table, labels: &Labels, k: usize, i: usize) -> Option<Label>
    requires { (k < table.now.n) × (i < table.now.n) }
    ensures { result ≡ label_from (λ x. facts table.now.n table.now.cells.now Kind.Ordered x i) labels.now.spreads k }
{
    if has_fact(table, Kind::Ordered, k, i) {
        labels.spreads[k].only()
    } else {
        None
    }
}

// The label of some k ≤ i.
fn label_below(table: &Table, labels: &Labels, i: usize) -> Option<Label>
    requires { i < table.now.n }
    ensures { BelowTold table.now.n table.now.cells.now labels.now.spreads i result }
{
    (0..table.n).find_map(|k| label_from(table, labels, k, i))
}

// The label at the root of each variable, where nothing clashes.
#[tactic(auto, using(crate::proofs::Below::filling_on))]
fn labels_below(table: &Table, labels: &Labels) -> RootLabels
    ensures { Filling table.now.n table.now.cells.now labels.now.spreads table.now.n result.at }
{
    let mut roots = RootLabels::none();
    for i in 0..table.n {
        roots.at[i] = label_below(table, labels, i);
    }
    roots
}

// The label told of each variable: none where the labels clash.
#[tactic(auto, using(crate::proofs::Below::told_consistent))]
pub fn root_labels(table: &Table, labels: &Labels) -> RootLabels
    ensures { RootsTold table.now.n table.now.cells.now labels.now.spreads result }
{
    match Verdict::from(clash_of(table, labels)) {
        Verdict::Consistent => labels_below(table, labels),
        Verdict::Clash(_) => RootLabels::none(),
    }
}
