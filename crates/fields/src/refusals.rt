// The refusals, in the order of their numbers.
ghost use Rattle.std.specs.Prelude.{◌≡◌};
ghost use Rattle.fields.specs.Refusals.{number_of};

#[derive(Clone, Copy, Debug, PartialEq, Eq)]
pub enum Fault {
    // 1: a field that is due is missing or incomplete; told at the sheet's length
    Cut,
    // 2: header map without bit 0, or with one of bits 3 to 7; told at 0
    HeaderMap,
    // 3: variable count 0, or more than the limit; told at 1
    VariableCount,
    // 4: record or question count above the limit; told at its high byte
    Count,
    // 5: item map 0, with one of bits 4 to 7 in a record, 5 to 7 in a question, or with several bits in a question; told
    // at the map
    ItemMap,
    // 6: variable n or more; told at its byte
    VariableRange,
    // 7: something behind the last question; told at its first byte
    Trailing,
    // 8: a lent table shorter than the table size; told at 0
    ShortTable,
    // 9: reply buffer shorter than the question count; told at 0
    ShortReplies,
    // 10: a path of no feature, or of more than the limit; told at the count
    PathLength,
}

// What is told of a refused sheet: the fault and its offset.
#[derive(Clone, Copy, Debug, PartialEq, Eq)]
pub struct Refusal {
    pub fault: Fault,
    pub at: usize,
}

// Where an item stands: it decides which maps are lawful.
#[derive(Clone, Copy, Debug, PartialEq, Eq)]
pub enum Place {
    Record,
    Question,
}

impl From<Fault> for u8 {
    // The refusal's number.
    ghost from_gives = { λ fault number. number ≡ number_of fault };

    fn from(fault: Fault) -> u8 {
        match fault {
            Fault::Cut => 1,
            Fault::HeaderMap => 2,
            Fault::VariableCount => 3,
            Fault::Count => 4,
            Fault::ItemMap => 5,
            Fault::VariableRange => 6,
            Fault::Trailing => 7,
            Fault::ShortTable => 8,
            Fault::ShortReplies => 9,
            Fault::PathLength => 10,
        }
    }
}
