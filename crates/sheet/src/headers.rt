// The header: a map byte, then by rising bit the fields whose bit stands.
ghost use Rattle.std.specs.Prelude.{◌≡◌};
ghost use Rattle.fields.specs.Refusals.{bad_header_map, bad_variable_count};
ghost use Rattle.sheet.specs.Headers.{header_map, variable_count, count_field, count_if, header_of};
ghost use Rattle.sheet.specs.Headers.{table_size, reply_count};

use fields::{
    Cursor, Fault, MOST_ITEMS, MOST_VARIABLES, Read, Refusal, has_bit, read_byte, read_if,
    read_word,
};

// How many bytes the largest fact table takes.
pub const LARGEST_TABLE: usize = MOST_VARIABLES * MOST_VARIABLES;

// The most replies.
pub const MOST_REPLIES: usize = MOST_ITEMS;

// The fields of a header, and where the first record starts.
// A count whose bit is missing is 0, says the format, so none is an Option; the map is as it was read.
#[derive(Clone, Copy, Debug, PartialEq, Eq)]
pub struct Header {
    pub map: u8,
    pub variables: u8,
    pub records: u16,
    pub questions: u16,
    pub first: Cursor,
}

impl Header {
    pub fn variable_count(self) -> u8
        ensures { result ≡ self.variables }
    {
        self.variables
    }

    pub fn record_count(self) -> u16
        ensures { result ≡ self.records }
    {
        self.records
    }

    pub fn question_count(self) -> u16
        ensures { result ≡ self.questions }
    {
        self.questions
    }

    // Where the first record starts.
    pub fn first_record(self) -> Cursor
        ensures { result ≡ self.first }
    {
        self.first
    }

    // How many replies the sheet gets.
    #[tactic(auto, unfolding(crate::specs::Headers::reply_count))]
    pub fn reply_count(self) -> usize
        ensures { result ≡ reply_count self }
    {
        usize::from(self.question_count())
    }

    // How many bytes a fact table takes.
    #[tactic(auto, unfolding(crate::specs::Headers::size_for))]
    pub fn table_size(self) -> usize
        ensures { result ≡ table_size self }
    {
        let n = usize::from(self.variables);
        n * n
    }
}

// The bits of a header's map, each for a count. The map stays the format's byte: has_bit is promised of any byte.
const VARIABLES: u8 = 1;

const RECORDS: u8 = 2;

const QUESTIONS: u8 = 4;

// Row 2 of the refusals.
#[tactic(auto, unfolding(fields::specs::Refusals::bad_header_map, fields::specs::Tests::less))]
fn is_bad_header_map(map: u8) -> bool
    ensures { result ≡ bad_header_map map }
{
    !has_bit(VARIABLES, map) || VARIABLES | RECORDS | QUESTIONS < map
}

// Row 3 of the refusals.
#[tactic(auto, unfolding(fields::specs::Refusals::bad_variable_count, fields::specs::Tests::less, fields::specs::Tests::same))]
fn is_bad_variable_count(n: u8) -> bool
    ensures { result ≡ bad_variable_count n }
{
    n == 0 || MOST_VARIABLES < usize::from(n)
}

// The header's map, the first byte.
#[tactic(auto, unfolding(crate::specs::Headers::header_map, fields::specs::Tests::pick))]
fn read_header_map(sheet: &[u8]) -> Read<u8>
    ensures { result ≡ header_map sheet.now }
{
    let map = read_byte(sheet, Cursor { at: 0 })?;
    if is_bad_header_map(map.value) {
        return Err(Refusal {
            fault: Fault::HeaderMap,
            at: 0,
        });
    }
    Ok(map)
}

// The variable count, the second byte.
#[tactic(auto, unfolding(crate::specs::Headers::variable_count, fields::specs::Tests::pick))]
fn read_variable_count(sheet: &[u8], from: Cursor) -> Read<u8>
    ensures { result ≡ variable_count sheet.now from }
{
    let count = read_byte(sheet, from)?;
    if is_bad_variable_count(count.value) {
        return Err(Refusal {
            fault: Fault::VariableCount,
            at: 1,
        });
    }
    Ok(count)
}

// A record or question count.
#[tactic(auto, unfolding(crate::specs::Headers::count_field, fields::specs::Refusals::bad_count, fields::specs::Tests::less, fields::specs::Tests::pick))]
fn read_count(sheet: &[u8], from: Cursor) -> Read<u16>
    ensures { result ≡ count_field sheet.now from }
{
    let count = read_word(sheet, from)?;
    if MOST_ITEMS < usize::from(count.value) {
        return Err(Refusal {
            fault: Fault::Count,
            at: from.at,
        });
    }
    Ok(count)
}

// A count that is there only where its bit stands, which is a flag as at `read_if`.
fn read_count_if(stands: bool, sheet: &[u8], from: Cursor) -> Read<Option<u16>>
    ensures { result ≡ count_if stands sheet.now from }
{
    read_if(stands, from, |at| read_count(sheet, at))
}

// The header alone: what follows it is not judged.
#[tactic(auto, unfolding(crate::specs::Headers::header_of))]
pub fn read_header(sheet: &[u8]) -> Result<Header, Refusal>
    ensures { result ≡ header_of sheet.now }
{
    let map = read_header_map(sheet)?;
    let variables = read_variable_count(sheet, map.next)?;
    let records = read_count_if(has_bit(RECORDS, map.value), sheet, variables.next)?;
    let questions = read_count_if(has_bit(QUESTIONS, map.value), sheet, records.next)?;
    Ok(Header {
        map: map.value,
        variables: variables.value,
        records: records.value.unwrap_or(0),
        questions: questions.value.unwrap_or(0),
        first: questions.next,
    })
}
