// The statements of all records of an accepted sheet.
ghost use Rattle.sheet.specs.Sheets.{sheet_of};
ghost use Rattle.statements.specs.Lists.{Stand, Gathering, AreEmpty};

use crate::lists::Lists;
use items::read_record;
use sheet::Header;

// Puts what the records of an accepted sheet state into empty lists. Lent, since by value they would be copied.
pub fn gather(sheet: &[u8], header: Header, lists: &mut Lists)
    requires gathering { Gathering sheet.now header }
    requires empty { AreEmpty lists.old }
    ensures { Stand header.variables (sheet_of sheet.now).stated lists.new }
{
    let mut cursor = header.first;
    for _ in 0..header.records {
        let Ok(record) = read_record(sheet, header.variables, cursor) else {
            return;
        };
        lists.put_record(record.value);
        cursor = record.next;
    }
}
