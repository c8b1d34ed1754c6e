// A record's own bytes, as a part of the caller's sheet.
ghost use Rattle.std.specs.Prelude.{◌≡◌};
ghost use Rattle.sheet.specs.Parts.{part_at, record_bytes};

use crate::headers::Header;
use crate::reading::behind_record;
use crate::whole::read_sheet;
use fields::Place;
use items::items_end;

// The bytes of the record that so many records precede.
#[tactic(auto, using(crate::proofs::Inside::record_inside), unfolding(crate::specs::Parts::part_at))]
fn part_at(sheet: &[u8], header: Header, which: u16) -> &[u8]
    ensures { result.now ≡ part_at sheet.now header which }
{
    let n = header.variables;
    let Ok(start) = items_end(which, Place::Record, sheet, n, header.first) else {
        return &sheet[..0];
    };
    let a = start.at;
    let end = behind_record(sheet, n, start);
    if end <= a {
        return &sheet[..0];
    }
    &sheet[a..end]
}

// A record's own bytes, by its number: a part of the sheet. Empty for a refused sheet, or a number not below the
// record count, so that `as` narrows no other.
#[tactic(auto, unfolding(crate::specs::Parts::record_bytes, fields::specs::Tests::less, fields::specs::Tests::pick))]
pub fn record_part(sheet: &[u8], which: u32) -> &[u8]
    ensures { result.now ≡ record_bytes sheet.now which }
{
    match read_sheet(sheet) {
        Ok(accepted) if which < u32::from(accepted.header.records) => part_at(
            sheet,
            accepted.header,
            which as u16,
        ),
        _ => &sheet[..0],
    }
}
