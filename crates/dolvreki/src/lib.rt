// What C calls: `include/dolvreki.h`.
#![tactic(auto)]

ghost use Rattle.std.specs.Prelude.{◌↔◌, IsTrue};
ghost use Rattle.sheet.specs.Sheets.{read_sheet, sheet_of};
ghost use Rattle.promise.specs.Checks.{Returned};
ghost use Rattle.promise.specs.Promise.{Means};
ghost use Rattle.promise.specs.Roots.{LabelReturned};
ghost use Rattle.promise.specs.Paths.{PathReturned};
ghost use Rattle.client.specs.Dropping.{MayDrop};

// Checks a sheet with two tables and a reply buffer: kind (0 consistent, 1 clash, 2 refused) + 256 × first +
// 16,777,216 × second.
#[unsafe(no_mangle)]
pub extern "C" fn check_sheet(
    sheet: &[u8],
    facts: &mut [u8],
    work: &mut [u8],
    replies: &mut [u8],
) -> u64
    ensures returned { Returned sheet.now facts.old work.old replies.old facts.new work.new replies.new result }
    ensures means { Means sheet.now facts.old work.old replies.old facts.new replies.new result }
{
    engine::check_sheet(sheet, facts, work, replies)
}

// Checks as `check_sheet` does, and tells the label that every assignment meeting the sheet has at the path that a question
// asks for: the number of the check + 1,099,511,627,776 × (0 for no label, else 1 + the label). No label is told where the
// outcome is not consistent, and of a number that is no path question's.
#[unsafe(no_mangle)]
pub extern "C" fn check_path(
    sheet: &[u8],
    facts: &mut [u8],
    work: &mut [u8],
    replies: &mut [u8],
    question: u32,
) -> u64
    ensures returned { PathReturned sheet.now facts.old work.old replies.old facts.new work.new replies.new
        question result }
    ensures means { Means sheet.now facts.old work.old replies.old facts.new replies.new result }
{
    engine::check_path(sheet, facts, work, replies, question)
}

// Whether the run-time test of what a question asks may be left out; a whole check, on buffers of its own.
#[unsafe(no_mangle)]
pub extern "C" fn may_drop(sheet: &[u8], question: u32) -> bool
    ensures { IsTrue result ↔ MayDrop sheet.now question }
{
    client::may_drop(sheet, question)
}

// The label that the root of a variable has in every assignment meeting the sheet: 0 for none, else 1 + the label; 0 also
// for a number that is no variable, and where the sheet is refused or clashes. A whole derivation, on a table of its own.
#[unsafe(no_mangle)]
pub extern "C" fn root_label(sheet: &[u8], variable: u32) -> u64
    ensures { LabelReturned (read_sheet sheet.now) (sheet_of sheet.now) variable result }
{
    engine::root_label(sheet, variable)
}
