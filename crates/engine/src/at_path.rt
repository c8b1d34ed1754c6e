// The label at the path that a question asks for, beside the check of its sheet.
ghost use Rattle.std.specs.Prelude.{length, ◌<◌, ◌≤◌, ◌≡◌};
ghost use Rattle.items.specs.declared.items.Question.{Question};
ghost use Rattle.items.specs.Paths.{features_at};
ghost use Rattle.sheet.specs.Sheets.{sheet_of};
ghost use Rattle.labels.specs.Roots.{label_in};
ghost use Rattle.outcomes.specs.Judged.{judged};
ghost use Rattle.outcomes.specs.Outcomes.{packed};
ghost use Rattle.promise.specs.Checks.{Checked};
ghost use Rattle.promise.specs.Promise.{Means};
ghost use Rattle.promise.specs.Paths.{PathLabelTold};
ghost use Rattle.engine.specs.Replying.{IsRead};
ghost use Rattle.engine.specs.Roots.{Derived, Left};
ghost use Rattle.engine.specs.Paths.{PathLabelIs, PathLabelBy};

use crate::checking::check;
use fields::{Label, Variable};
use items::{Path, Question, path_at};
use outcomes::Outcome;
use paths::path_label;
use sheet::{Header, question_numbered, read_sheet};
use statements::{Lists, gather};
use table::Table;

// The outcome of a check, and the label told at the path of a question.
#[derive(Clone, Copy)]
pub struct AtPath {
    pub outcome: Outcome,
    pub label: Option<Label>,
}

// The label told at a path of an accepted sheet, by a table that holds its facts.
fn label_in(sheet: &[u8], header: Header, facts: &[u8], i: Variable, path: Path) -> Option<Label>
    requires derived { Derived sheet.now header facts.now }
    requires variable { i.0 < header.variables }
    requires read { IsRead sheet.now (Question.HasPath i path) }
    ensures { PathLabelIs (sheet_of sheet.now) i.0 (features_at path.count sheet.now path.first) result }
{
    let mut lists = Lists::empty();
    gather(sheet, header, &mut lists);
    let table = Table {
        cells: facts,
        n: usize::from(header.variables),
    };
    path_label(
        &table,
        lists.selections.as_slice(),
        &lists.labels,
        i,
        path_at(sheet, path.first, path.count),
        path.count,
    )
}

// The label told of a question, by what the check of its sheet has left: none where it asks for no path.
fn label_left(sheet: &[u8], outcome: Outcome, facts: &[u8], question: u32) -> Option<Label>
    requires { Left sheet.now outcome facts.now }
    ensures { PathLabelBy outcome (sheet_of sheet.now) question result }
{
    let Outcome::Consistent(_, _) = outcome else {
        return None;
    };
    let Ok(accepted) = read_sheet(sheet) else {
        return None;
    };
    let Some(asked) = question_numbered(sheet, accepted, question) else {
        return None;
    };
    let Question::HasPath(i, path) = asked else {
        return None;
    };
    let header = accepted.header;
    label_in(sheet, header, &facts[..header.table_size()], i, path)
}

// Checks a sheet as `check` does, and tells the label at the path that a question asks for.
pub fn check_at_path(
    sheet: &[u8],
    facts: &mut [u8],
    work: &mut [u8],
    replies: &mut [u8],
    question: u32,
) -> AtPath
    ensures checked { Checked sheet.now facts.old work.old replies.old facts.new work.new replies.new result.outcome }
    ensures means { Means sheet.now facts.old work.old replies.old facts.new replies.new (packed result.outcome) }
    ensures label { PathLabelTold (judged sheet.now (length facts.old) (length work.old) (length replies.old))
        (sheet_of sheet.now) question (label_in result.label) }
{
    let outcome = check(sheet, facts, work, replies);
    AtPath {
        outcome,
        label: label_left(sheet, outcome, facts, question),
    }
}
