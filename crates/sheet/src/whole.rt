// The whole sheet: header, records, questions, and nothing behind them. One pass judges all of it.
ghost use Rattle.std.specs.Prelude.{◌≡◌};
ghost use Rattle.sheet.specs.Sheets.{body_of, read_sheet};

use crate::headers::{Header, read_header};
use fields::{Cursor, Fault, MOST_ITEMS, Place, Refusal};
use items::items_end;

// How many bytes the longest sheet has: 6 of its header, 9 of each record, 19 of each question.
pub const LONGEST_SHEET: usize = 6 + MOST_ITEMS * (9 + 19);

// An accepted sheet: its header, and where its questions start.
#[derive(Clone, Copy, Debug, PartialEq, Eq)]
pub struct Accepted {
    pub header: Header,
    pub asked: Cursor,
}

// What follows a header: its records, its questions, the end.
#[tactic(auto, unfolding(crate::specs::Sheets::body_of, fields::specs::Refusals::remain, fields::specs::Tests::less, fields::specs::Tests::pick))]
fn read_body(sheet: &[u8], header: Header) -> Result<Accepted, Refusal>
    ensures { result ≡ body_of sheet.now header }
{
    let n = header.variables;
    let asked = items_end(header.records, Place::Record, sheet, n, header.first)?;
    let end = items_end(header.questions, Place::Question, sheet, n, asked)?;
    if end.at < sheet.len() {
        return Err(Refusal {
            fault: Fault::Trailing,
            at: end.at,
        });
    }
    Ok(Accepted { header, asked })
}

// Accepts a sheet or refuses it by fault and offset.
#[tactic(auto, unfolding(crate::specs::Sheets::read_sheet))]
pub fn read_sheet(sheet: &[u8]) -> Result<Accepted, Refusal>
    ensures { result ≡ read_sheet sheet.now }
{
    let header = read_header(sheet)?;
    read_body(sheet, header)
}
