// The check as C gets it, the outcome as one number, and the labels told of one variable and of one question.
ghost use Rattle.std.specs.Prelude.{◌<◌, ◌≡◌};
ghost use Rattle.sheet.specs.Sheets.{read_sheet, sheet_of};
ghost use Rattle.labels.specs.Roots.{label_in};
ghost use Rattle.promise.specs.Checks.{Returned};
ghost use Rattle.promise.specs.Promise.{Means};
ghost use Rattle.promise.specs.Labels.{label_number};
ghost use Rattle.promise.specs.Roots.{LabelReturned};
ghost use Rattle.promise.specs.Paths.{with_label, PathReturned};

use crate::at_path::check_at_path;
use crate::checking::check;
use crate::roots::root_labels;
use fields::Label;

// Checks a sheet with two tables and a reply buffer: kind (0 consistent, 1 clash, 2 refused) + 256 × first +
// 16,777,216 × second.
pub fn check_sheet(sheet: &[u8], facts: &mut [u8], work: &mut [u8], replies: &mut [u8]) -> u64
    ensures returned { Returned sheet.now facts.old work.old replies.old facts.new work.new replies.new result }
    ensures means { Means sheet.now facts.old work.old replies.old facts.new replies.new result }
{
    check(sheet, facts, work, replies).packed()
}

// The number of a label: 0 for none, else 1 + the label.
fn label_number(label: Option<Label>) -> u64
    ensures { result ≡ label_number (label_in label) }
{
    match label {
        None => 0,
        Some(label) => 1 + u64::from(label.0),
    }
}

// The number of an outcome, with that of a label above it.
#[tactic(auto, unfolding(promise::specs::Paths::with_label))]
fn with_label(number: u64, label: Option<Label>) -> u64
    requires { number < 1099511627776 }
    ensures { result ≡ with_label number (label_in label) }
{
    number + 1099511627776 * label_number(label)
}

// Checks as `check_sheet` does, and tells the label at the path that a question asks for: the number of the check +
// 1,099,511,627,776 × the number of the label.
pub fn check_path(
    sheet: &[u8],
    facts: &mut [u8],
    work: &mut [u8],
    replies: &mut [u8],
    question: u32,
) -> u64
    ensures returned { PathReturned sheet.now facts.old work.old replies.old facts.new work.new replies.new
        question result }
    ensures means { Means sheet.now facts.old work.old replies.old facts.new replies.new result }
{
    let at = check_at_path(sheet, facts, work, replies, question);
    with_label(at.outcome.packed(), at.label)
}

// The label told of a variable: 0 for none, else 1 + the label; none for a number that is no variable. A whole derivation, on
// a table of its own.
pub fn root_label(sheet: &[u8], variable: u32) -> u64
    ensures { LabelReturned (read_sheet sheet.now) (sheet_of sheet.now) variable result }
{
    // by `as`: a usize is no `From` of a u32
    label_number(root_labels(sheet).of(variable as usize))
}
