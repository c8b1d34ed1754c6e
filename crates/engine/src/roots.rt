// The labels that the roots of variables must have: of a sheet alone, and beside its check.
ghost use Rattle.std.specs.Prelude.{length, ◌≡◌};
ghost use Rattle.sheet.specs.Sheets.{read_sheet, sheet_of};
ghost use Rattle.labels.specs.Labels.{LabelsStand};
ghost use Rattle.statements.specs.Lists.{Stand, AreEmpty};
ghost use Rattle.outcomes.specs.Judged.{judged};
ghost use Rattle.outcomes.specs.Outcomes.{packed};
ghost use Rattle.promise.specs.Checks.{Checked};
ghost use Rattle.promise.specs.Promise.{Means};
ghost use Rattle.promise.specs.Roots.{LabelsTold};
ghost use Rattle.engine.specs.Roots.{Deriving, Roomy, Derived, Left, RootsAre, RootsBy};

use crate::checking::{check, close};
use labels::{Labels, RootLabels};
use outcomes::Outcome;
use selections::Groups;
use sheet::{Header, LARGEST_TABLE, read_header, read_sheet};
use statements::{Lists, gather};
use table::{Queue, Table};

// The outcome of a check, and the labels told of variables: none where the sheet is not consistent.
#[derive(Clone, Copy)]
pub struct Labelled {
    pub outcome: Outcome,
    pub labels: RootLabels,
}

// Puts what an accepted sheet states into empty lists, and fills a table of exactly the size in use with what follows.
fn derive(sheet: &[u8], header: Header, lists: &mut Lists, facts: &mut [u8])
    requires sized { Deriving sheet.now header (length facts.old) }
    requires empty { AreEmpty lists.old }
    ensures stand { Stand header.variables (sheet_of sheet.now).stated lists.new }
    ensures derived { Derived sheet.now header facts.new }
{
    gather(sheet, header, lists);
    let mut groups = Groups::empty();
    let mut queue = Queue::new();
    close(
        facts,
        usize::from(header.variables),
        lists,
        &mut groups,
        &mut queue,
    );
}

// The labels told of an accepted sheet, by the labels that it states and a table that holds its facts.
fn labels_in(sheet: &[u8], header: Header, labels: &Labels, facts: &[u8]) -> RootLabels
    requires stand { LabelsStand header.variables (sheet_of sheet.now).stated labels.now.spreads }
    requires derived { Derived sheet.now header facts.now }
    ensures { RootsAre (sheet_of sheet.now) result }
{
    let table = Table {
        cells: facts,
        n: usize::from(header.variables),
    };
    answers::root_labels(&table, labels)
}

// The same of a table that is filled first, in a buffer that has room for it.
fn labels_derived(sheet: &[u8], header: Header, facts: &mut [u8]) -> RootLabels
    requires { Roomy sheet.now header (length facts.old) }
    ensures { RootsAre (sheet_of sheet.now) result }
{
    let size = header.table_size();
    let mut lists = Lists::empty();
    derive(sheet, header, &mut lists, &mut facts[..size]);
    labels_in(sheet, header, &lists.labels, &facts[..size])
}

// The labels told of a sheet, by what its check has left.
fn labels_left(sheet: &[u8], outcome: Outcome, facts: &[u8]) -> RootLabels
    requires { Left sheet.now outcome facts.now }
    ensures { RootsBy outcome (sheet_of sheet.now) result }
{
    let Outcome::Consistent(_, _) = outcome else {
        return RootLabels::none();
    };
    let Ok(header) = read_header(sheet) else {
        return RootLabels::none();
    };
    let mut lists = Lists::empty();
    gather(sheet, header, &mut lists);
    labels_in(sheet, header, &lists.labels, &facts[..header.table_size()])
}

// Checks a sheet as `check` does, and tells the labels of its variables.
pub fn check_labelled(
    sheet: &[u8],
    facts: &mut [u8],
    work: &mut [u8],
    replies: &mut [u8],
) -> Labelled
    ensures checked { Checked sheet.now facts.old work.old replies.old facts.new work.new replies.new result.outcome }
    ensures means { Means sheet.now facts.old work.old replies.old facts.new replies.new (packed result.outcome) }
    ensures labels { LabelsTold (judged sheet.now (length facts.old) (length work.old) (length replies.old))
        (sheet_of sheet.now) result.labels }
{
    let outcome = check(sheet, facts, work, replies);
    Labelled {
        outcome,
        labels: labels_left(sheet, outcome, facts),
    }
}

// The labels told of the variables of a sheet: none for bytes that are no sheet, and where it clashes.
pub fn root_labels(sheet: &[u8]) -> RootLabels
    ensures { LabelsTold (read_sheet sheet.now) (sheet_of sheet.now) result }
{
    let Ok(accepted) = read_sheet(sheet) else {
        return RootLabels::none();
    };
    let mut facts = [0; LARGEST_TABLE];
    labels_derived(sheet, accepted.header, &mut facts)
}
