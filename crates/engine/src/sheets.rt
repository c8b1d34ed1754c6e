// The answers to all questions of a sheet, in their order. Of the six parameters three are what a trial needs, as in crate
// closure, and three are lent by C: the sheet with what was read of it, and the reply buffer.
ghost use Rattle.std.specs.Prelude.{map, ◌≡◌};
ghost use Rattle.sheet.specs.Sheets.{sheet_of};
ghost use Rattle.rules.specs.Replies.{replies_of, reply_number};
ghost use Rattle.closure.specs.Trials.{Restored};
ghost use Rattle.engine.specs.Replying.{Replying, Held, Asked};

use crate::reply::reply;
use closure::Closed;
use facts::Growth;
use items::read_question;
use selections::Groups;
use sheet::Accepted;

// Writes one reply a question; table and groups are then as they were.
pub(crate) fn reply_all(
    sheet: &[u8],
    accepted: Accepted,
    closed: &Closed,
    growth: &mut Growth,
    groups: &mut Groups,
    replies: &mut [u8],
)
    requires asked { Asked sheet.now accepted replies.old }
    requires sizes { growth.old.n ≡ accepted.header.variables }
    requires replying { Replying closed.now growth.old groups.old }
    requires held { Held accepted.header.variables closed.now groups.old (sheet_of sheet.now).stated }
    ensures written { replies.new ≡ map reply_number (replies_of (sheet_of sheet.now)) }
    ensures restored { Restored growth.old growth.new groups.old groups.new }
{
    let mut cursor = accepted.asked;
    for place in replies.iter_mut() {
        let Ok(question) = read_question(sheet, accepted.header.variables, cursor) else {
            return;
        };
        *place = u8::from(reply(sheet, closed, growth, groups, question.value));
        cursor = question.next;
    }
}
