// What is known of statements whose facts are all derived.
ghost use Rattle.std.specs.Prelude.{◌≡◌};
ghost use Rattle.closure.specs.Told.{IsTold};
ghost use Rattle.std.proofs.Props.{props};

use answers::clash_of;
use labels::{Labels, Spread};
use rules::Clash;
use selections::Selection;
use table::Table;

#[derive(Clone, Copy)]
pub struct Closed<'a> {
    // all facts that follow
    pub table: &'a Table<'a>,
    // the selection list
    pub selections: &'a [Selection],
    // the labels of each variable, and of all
    pub labels: &'a Labels,
    pub spread: Spread,
    // the pair that clashes, if there is one
    pub clash: Option<Clash>,
    // what is told of them is so
    pub ghost told: { IsTold table.now.n table.now.cells.now labels.now.spreads clash spread } by { Prim.hlevel props },
}

impl<'a> Closed<'a> {
    // With what follows of labels and clash.
    pub fn new(table: &'a Table<'a>, selections: &'a [Selection], labels: &'a Labels) -> Closed<'a>
        ensures table { result.table.now ≡ table.now }
        ensures selections { result.selections.now ≡ selections.now }
        ensures labels { result.labels.now ≡ labels.now }
    {
        Closed {
            table,
            selections,
            labels,
            spread: labels.spread(table.n),
            clash: clash_of(table, labels),
        }
    }
}
