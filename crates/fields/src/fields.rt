// One field at a cursor: looked for whole, then judged, before the next.
ghost use Rattle.std.specs.Prelude.{◌≡◌, IsTrue};
ghost use Rattle.fields.specs.Fields.{byte_field, word_field, variable_field, ReadIf};
ghost use Rattle.fields.specs.Refusals.{cut};
ghost use Rattle.fields.specs.Tests.{has};

use crate::numbers::{Cursor, Variable};
use crate::refusals::{Fault, Refusal};

// A value that was found, and where the next field starts.
#[derive(Clone, Copy, Debug, PartialEq, Eq)]
pub struct Field<T> {
    pub value: T,
    pub next: Cursor,
}

impl<T> Field<T> {
    // The same field, with what is made of its value.
    pub fn map<U, F: FnOnce(T) -> U>(self, make: F) -> Field<U>
        requires { F.pre make self.value }
        ensures value { F.post make self.value result.value }
        ensures next { result.next ≡ self.next }
    {
        Field {
            value: make(self.value),
            next: self.next,
        }
    }
}

// A field, or why the sheet is refused.
pub type Read<T> = Result<Field<T>, Refusal>;

// Whether the bit of this value stands in a map. Both are bytes: a map is a field of the format.
// Not `map & value != 0`: it is promised of any value, and that differs at one that is no power of two.
#[tactic(auto, unfolding(crate::specs::Tests::has, crate::specs::Tests::same))]
pub fn has_bit(value: u8, map: u8) -> bool
    ensures { result ≡ has value map }
{
    value != 0 && map / value % 2 == 1
}

// Refusal 1.
pub fn cut_off(sheet: &[u8]) -> Refusal
    ensures { result ≡ cut sheet.now }
{
    Refusal {
        fault: Fault::Cut,
        at: sheet.len(),
    }
}

// A field of one byte.
#[tactic(auto, unfolding(crate::specs::Fields::byte_field, crate::specs::Refusals::ends, crate::specs::Tests::less, crate::specs::Tests::pick))]
pub fn read_byte(sheet: &[u8], from: Cursor) -> Read<u8>
    ensures { result ≡ byte_field sheet.now from }
{
    let at = from.at;
    if sheet.len() <= at {
        return Err(cut_off(sheet));
    }
    Ok(Field {
        value: sheet[at],
        next: Cursor { at: at + 1 },
    })
}

// A field of two bytes, the high one first.
#[tactic(auto, unfolding(crate::specs::Fields::word_field, crate::specs::Fields::word, crate::specs::Fields::byte_field, crate::specs::Refusals::ends, crate::specs::Tests::less, crate::specs::Tests::pick))]
pub fn read_word(sheet: &[u8], from: Cursor) -> Read<u16>
    ensures { result ≡ word_field sheet.now from }
{
    let high = read_byte(sheet, from)?;
    let low = read_byte(sheet, high.next)?;
    Ok(Field {
        value: u16::from_be_bytes([high.value, low.value]),
        next: low.next,
    })
}

// A variable below the count n.
#[tactic(auto, unfolding(crate::specs::Fields::variable_field, crate::specs::Refusals::bad_variable, crate::specs::Tests::less, crate::specs::Tests::pick))]
pub fn read_variable(sheet: &[u8], n: u8, from: Cursor) -> Read<Variable>
    ensures { result ≡ variable_field sheet.now n from }
{
    let field = read_byte(sheet, from)?;
    if field.value < n {
        Ok(field.map(Variable))
    } else {
        Err(Refusal {
            fault: Fault::VariableRange,
            at: from.at,
        })
    }
}

// A field that is there only where its bit stands: a flag, since a map of the format tells which fields stand.
pub fn read_if<T, F: FnOnce(Cursor) -> Read<T>>(
    stands: bool,
    from: Cursor,
    read: F,
) -> Read<Option<T>>
    requires { IsTrue stands → F.pre read from }
    ensures { ReadIf (F.post read from) stands from result }
{
    if !stands {
        return Ok(Field {
            value: None,
            next: from,
        });
    }
    Ok(read(from)?.map(Some))
}
