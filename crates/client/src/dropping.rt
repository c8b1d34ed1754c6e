// Whether a run-time test may be left out: the check, on buffers of its own.
ghost use Rattle.std.specs.Prelude.{◌≡◌, ◌<◌, ◌↔◌, IsTrue, length, get_or};
ghost use Rattle.sheet.specs.Headers.{most_replies};
ghost use Rattle.sheet.specs.Sheets.{read_sheet, sheet_of};
ghost use Rattle.promise.specs.Promise.{IsAccepted};
ghost use Rattle.client.specs.Dropping.{MayDrop};

use engine::{LARGEST_TABLE, MOST_REPLIES, Outcome, Reply, check, read_header};

// Whether there is a question of this number, answered always.
fn is_answered_always(sheet: &[u8], replies: &[u8], question: u32) -> bool
    requires { length replies.now ≡ most_replies }
    ensures { IsAccepted (read_sheet sheet.now)
        → IsTrue result ↔ ((question < length (sheet_of sheet.now).asked) × (get_or replies.now question 0 ≡ 0)) }
{
    // by `as`: a usize is no `From` of a u32
    let k = question as usize;
    let Ok(header) = read_header(sheet) else {
        return false;
    };
    k < header.reply_count() && replies.get(k) == Some(&u8::from(Reply::Always))
}

// Whether the test of what a question asks may be left out: the bytes are a sheet that some assignment meets, it has a
// question of this number, and every assignment that meets it keeps that question.
pub fn may_drop(sheet: &[u8], question: u32) -> bool
    ensures { IsTrue result ↔ MayDrop sheet.now question }
{
    let mut facts = [0u8; LARGEST_TABLE];
    let mut work = [0u8; LARGEST_TABLE];
    let mut replies = [0u8; MOST_REPLIES];
    // no let-else: each outcome is named, as a test may be left out for none of the others
    match check(sheet, &mut facts, &mut work, &mut replies) {
        Outcome::Consistent(_, _) => is_answered_always(sheet, &replies, question),
        Outcome::Clash(_, _) => false,
        Outcome::Refused(_, _) => false,
    }
}
