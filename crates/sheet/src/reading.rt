// A reading in progress: a sheet and the next offset together. Each function leaves the work to
// one on the slice and the cursor.
ghost use Rattle.std.specs.Prelude.{◌≡◌, drop};
ghost use Rattle.fields.specs.declared.refusals.Place.{Place};
ghost use Rattle.fields.specs.Fields.{byte_field, word_field};
ghost use Rattle.items.specs.Items.{item_at, question_at};
ghost use Rattle.sheet.specs.Readings.{bytes_of, started, moved, end_of};

use fields::{Cursor, Read, read_byte, read_word};
use items::{Item, Question, read_question, read_record};

// The sheet, and where what comes next starts.
#[derive(Clone, Copy)]
pub struct Reader<'a> {
    pub sheet: &'a [u8],
    pub next: Cursor,
}

// Where a field that was looked for at a cursor ends: where it was refused, there.
fn end_of<T>(read: &Read<T>, from: Cursor) -> Cursor
    ensures { result ≡ end_of read.now from }
{
    match read {
        Ok(field) => field.next,
        Err(_) => from,
    }
}

// What stands from a cursor on; nothing behind the end.
fn rest_from(sheet: &[u8], from: Cursor) -> &[u8]
    ensures { result.now ≡ drop from.at sheet.now }
{
    &sheet[from.at.min(sheet.len())..]
}

impl<'a> Reader<'a> {
    // A reading of a sheet from a cursor on.
    pub fn start(sheet: &'a [u8], from: Cursor) -> Reader<'a>
        ensures { result ≡ started sheet.entry from }
    {
        Reader { sheet, next: from }
    }

    // Goes on behind what was read, or stays where it was refused.
    fn pass<T>(&mut self, read: Read<T>) -> Read<T>
        ensures { (result ≡ read) × (self.new ≡ moved self.old (end_of read self.old.next)) }
    {
        self.next = end_of(&read, self.next);
        read
    }

    // The next field of one byte. A refused reading stays where it is.
    // This and the three below are four names for users, each a line over `pass`.
    pub fn next_byte(&mut self) -> Read<u8>
        ensures { (result ≡ byte_field (bytes_of self.old) self.old.next)
            × (self.new ≡ moved self.old (end_of result self.old.next)) }
    {
        self.pass(read_byte(self.sheet, self.next))
    }

    // The next field of two bytes.
    pub fn next_word(&mut self) -> Read<u16>
        ensures { (result ≡ word_field (bytes_of self.old) self.old.next)
            × (self.new ≡ moved self.old (end_of result self.old.next)) }
    {
        self.pass(read_word(self.sheet, self.next))
    }

    // The next record, over n variables.
    pub fn next_record(&mut self, n: u8) -> Read<Item>
        ensures { (result ≡ item_at Place.Record (bytes_of self.old) n self.old.next)
            × (self.new ≡ moved self.old (end_of result self.old.next)) }
    {
        self.pass(read_record(self.sheet, n, self.next))
    }

    // The next question, over n variables.
    pub fn next_question(&mut self, n: u8) -> Read<Question>
        ensures { (result ≡ question_at (bytes_of self.old) n self.old.next)
            × (self.new ≡ moved self.old (end_of result self.old.next)) }
    {
        self.pass(read_question(self.sheet, n, self.next))
    }

    // The offset that was reached.
    pub fn offset(self) -> usize
        ensures { result ≡ self.entry.next.at }
    {
        self.next.at
    }

    // What is left of the sheet.
    pub fn rest(self) -> &'a [u8]
        ensures { result.now ≡ drop self.entry.next.at (bytes_of self.entry) }
    {
        rest_from(self.sheet, self.next)
    }
}

// How far a reading gets that starts at a cursor and reads one record: nowhere where there is none.
pub fn behind_record(sheet: &[u8], n: u8, from: Cursor) -> usize
    ensures { result ≡ (end_of (item_at Place.Record sheet.now n from) from).at }
{
    let mut reader = Reader::start(sheet, from);
    let _ = reader.next_record(n);
    reader.offset()
}
