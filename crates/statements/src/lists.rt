// The lists in which statements stand, one statement after another.
ghost use Rattle.std.specs.Prelude.{◌<◌, length, [], ◌∷◌, ◌≡◌, option_to_list};
ghost use Rattle.fields.specs.Limits.{most_items};
ghost use Rattle.items.specs.Statements.{statements_of};
ghost use Rattle.rules.specs.Tables.{kind_cell};
ghost use Rattle.statements.specs.Lists.{pairs_room, with_pair, with_selection, pairs_in, selections_in};
ghost use Rattle.statements.specs.Lists.{pairs_if, selections_if, AreEmpty, Putting, Put};

use arrayvec::ArrayVec;
use derivation::Pair;
use fields::{Feature, MOST_ITEMS, Variable};
use items::{Item, Statement};
use labels::Labels;
use rules::Kind;
use selections::Selection;
use table::Kinds;

// As many pairs as records can state: two each.
pub const PAIRS: usize = 2 * MOST_ITEMS;

// As many selections.
pub const SELECTIONS: usize = MOST_ITEMS;

// What records state: pairs, selections, and the labels of each variable.
#[derive(Drop)]
pub struct Lists {
    pub pairs: ArrayVec<Pair, PAIRS>,
    pub selections: ArrayVec<Selection, SELECTIONS>,
    pub labels: Labels,
}

impl Lists {
    // Lists in which nothing stands.
    pub fn empty() -> Lists
        ensures { AreEmpty result }
    {
        Lists {
            pairs: ArrayVec::new(),
            selections: ArrayVec::new(),
            labels: Labels::none(),
        }
    }

    // Puts a pair behind the others.
    fn put_pair(&mut self, kind: Kind, left: Variable, right: Variable)
        requires { length self.old.pairs.items < pairs_room }
        ensures { self.new ≡ with_pair self.old (kind_cell kind) left.0 right.0 }
    {
        self.pairs.push(Pair {
            kinds: Kinds::from(kind),
            left,
            right,
        });
    }

    // Puts a selection behind the others.
    fn put_selection(&mut self, subject: Variable, feature: Feature, child: Variable)
        requires { length self.old.selections.items < most_items }
        ensures { self.new ≡ with_selection self.old subject.0 feature.0 child.0 }
    {
        self.selections.push(Selection {
            subject,
            feature,
            child,
        });
    }

    // Puts a statement behind the others.
    fn put(&mut self, q: Statement)
        requires { Putting (q ∷ []) (pairs_in q) (selections_in q) self.old }
        ensures { Put (q ∷ []) (pairs_in q) (selections_in q) self.old self.new }
    {
        match q {
            Statement::Ordering(i, j) => self.put_pair(Kind::Ordered, i, j),
            Statement::Compatibility(i, j) => self.put_pair(Kind::Compatible, i, j),
            Statement::Selection(i, f, j) => self.put_selection(i, f, j),
            Statement::Labelling(i, a) => self.labels.note(i.index(), a),
        }
    }

    // Puts a statement behind the others where there is one.
    fn put_if(&mut self, q: Option<Statement>)
        requires { Putting (option_to_list q) (pairs_if q) (selections_if q) self.old }
        ensures { Put (option_to_list q) (pairs_if q) (selections_if q) self.old self.new }
    {
        if let Some(q) = q {
            self.put(q);
        }
    }

    // Puts what a record states behind the others, by rising bit.
    pub(crate) fn put_record(&mut self, x: Item)
        requires { Putting (statements_of x) 2 1 self.old }
        ensures { Put (statements_of x) 2 1 self.old self.new }
    {
        self.put_if(x.ordering());
        self.put_if(x.compatibility());
        self.put_if(x.selection());
        self.put_if(x.labelling());
    }
}
