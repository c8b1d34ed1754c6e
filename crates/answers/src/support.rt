// Support: whether a question follows from the facts of the table.
ghost use Rattle.std.specs.Prelude.{◌<◌, ◌≡◌};
ghost use Rattle.items.specs.Statements.{Names};
ghost use Rattle.rules.specs.Tables.{facts};
ghost use Rattle.rules.specs.declared.kinds.Kind.{Kind};
ghost use Rattle.selections.specs.Listed.{Selections};
ghost use Rattle.answers.specs.Supports.{SingleLabels, IsSelection, is_under, is_label, LabelTold, SupportTold};

use crate::cells::has_fact;
use fields::{Label, Variable};
use items::Statement;
use labels::Labels;
use rules::Kind;
use selections::Selection;
use table::Table;

// Whether i ≤ j holds.
fn is_below(table: &Table, i: Variable, j: Variable) -> bool
    requires { (i.0 < table.now.n) × (j.0 < table.now.n) }
    ensures { result ≡ facts table.now.n table.now.cells.now Kind.Ordered i.0 j.0 }
{
    has_fact(table, Kind::Ordered, i.index(), j.index())
}

// Whether upper is some k[f]m, and lower some i[f]j with k ≤ i and j ≤ m.
#[tactic(auto, unfolding(fields::specs::Tests::same))]
fn is_under(table: &Table, upper: &Selection, lower: &Selection) -> bool
    requires { IsSelection table.now.n upper.now × IsSelection table.now.n lower.now }
    ensures { result ≡ is_under (facts table.now.n table.now.cells.now) upper.now lower.now }
{
    upper.feature == lower.feature
        && is_below(table, upper.subject, lower.subject)
        && is_below(table, lower.child, upper.child)
}

// Whether a label that may be there is a.
#[tactic(auto, unfolding(fields::specs::Tests::same))]
fn is_label(found: Option<Label>, a: Label) -> bool
    ensures { result ≡ is_label found a.0 }
{
    matches!(found, Some(b) if b == a)
}

// Whether some k ≤ i has the label a.
fn has_label(table: &Table, labels: &Labels, i: usize, a: Label) -> bool
    requires small { i < table.now.n }
    requires single_labels { SingleLabels table.now.n labels.now.spreads }
    ensures { LabelTold table.now.n table.now.cells.now labels.now.spreads i a.0 result }
{
    (0..table.n).any(|k| is_label(labels.spreads[k].only(), a)
        && has_fact(table, Kind::Ordered, k, i))
}

// Whether the question is supported.
pub fn supports(table: &Table, list: &[Selection], labels: &Labels, q: Statement) -> bool
    requires names { Names table.now.n q }
    requires selections { Selections table.now.n list.now }
    requires single_labels { SingleLabels table.now.n labels.now.spreads }
    ensures { SupportTold table.now.n table.now.cells.now list.now labels.now.spreads q result }
{
    match q {
        Statement::Ordering(i, j) => is_below(table, i, j),
        Statement::Compatibility(i, j) => has_fact(table, Kind::Compatible, i.index(), j.index()),
        Statement::Selection(subject, feature, child) => {
            let asked = Selection {
                subject,
                feature,
                child,
            };
            list.iter()
                .any(|selection| is_under(table, selection, &asked))
                && list
                    .iter()
                    .any(|selection| is_under(table, &asked, selection))
        }
        Statement::Labelling(i, a) => has_label(table, labels, i.index(), a),
    }
}
