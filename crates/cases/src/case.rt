// A case, and what it shows by its word.
use crate::readings;
use std::io::{Result, Write};

// A word, behind a space.
pub fn write_word(out: &mut impl Write, word: &str) -> Result<()> {
    write!(out, " {word}")
}

// Numbers, each behind a space. All that is shown goes through these two: each further format costs seconds of proof.
pub fn write_numbers(out: &mut impl Write, numbers: &[usize]) -> Result<()> {
    for number in numbers {
        write!(out, " {number}")?;
    }
    Ok(())
}

// One line of the text.
#[derive(Clone, Copy)]
pub struct Case<'a> {
    // which reading is shown
    pub word: &'a str,
    // all that stands before the colon, the word too
    pub name: &'a str,
    // the sheet
    pub bytes: &'a [u8],
}

impl Case<'_> {
    // The same case of the first so many bytes, or of all where there are fewer.
    pub fn cut(&self, count: usize) -> Self {
        Case {
            bytes: &self.bytes[..count.min(self.bytes.len())],
            ..*self
        }
    }

    // Begins a line.
    pub fn begin(&self, out: &mut impl Write) -> Result<()> {
        write!(out, "{}:", self.name)
    }

    // What the word asks for; any other word shows nothing.
    pub fn show(&self, out: &mut impl Write) -> Result<()> {
        match self.word {
            "sheet" => readings::show_sheet(out, self),
            "header" => readings::show_header(out, self),
            "records" => readings::show_records(out, self),
            "cuts" => readings::show_cuts(out, self),
            _ => Ok(()),
        }
    }
}
