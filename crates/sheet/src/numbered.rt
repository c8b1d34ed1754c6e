// A question by its number.
ghost use Rattle.std.specs.Prelude.{◌≡◌};
ghost use Rattle.sheet.specs.Numbered.{numbered};

use crate::whole::Accepted;
use fields::Place;
use items::{Question, items_end, read_question};

// The question that so many precede, of an accepted sheet; none for a number not below the question count, so that `as`
// narrows no other.
#[tactic(auto, unfolding(crate::specs::Numbered::numbered, items::specs::Items::question_at, fields::specs::Tests::less, fields::specs::Tests::pick))]
pub fn question_numbered(sheet: &[u8], accepted: Accepted, which: u32) -> Option<Question>
    ensures { result ≡ numbered sheet.now accepted which }
{
    let header = accepted.header;
    if u32::from(header.questions) <= which {
        return None;
    }
    let n = header.variables;
    let start = items_end(which as u16, Place::Question, sheet, n, accepted.asked).ok()?;
    Some(read_question(sheet, n, start).ok()?.value)
}
