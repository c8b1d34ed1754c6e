// How a sheet is read, behind the name of its case.
use crate::case::{Case, write_numbers, write_word};
use sheet::{Accepted, Header, Refusal};
use std::io::{Result, Write};

fn refused(out: &mut impl Write, refusal: Refusal) -> Result<()> {
    let fault = u8::from(refusal.fault);
    write_word(out, "refused")?;
    write_numbers(out, &[usize::from(fault), refusal.at])
}

// Counts, table size and the offset of the records.
fn header(out: &mut impl Write, h: Header) -> Result<()> {
    let counts = [
        usize::from(h.variable_count()),
        usize::from(h.record_count()),
        usize::from(h.question_count()),
    ];
    write_numbers(out, &counts)?;
    write_numbers(out, &[h.table_size(), h.first_record().at])
}

fn accepted(out: &mut impl Write, found: Accepted) -> Result<()> {
    write_word(out, "accepted")?;
    header(out, found.header)?;
    write_numbers(out, &[found.asked.at])
}

// The whole sheet: accepted with what its header says and the offset of the questions, or refused.
pub fn show_sheet(out: &mut impl Write, case: &Case) -> Result<()> {
    case.begin(out)?;
    match sheet::read_sheet(case.bytes) {
        Ok(found) => accepted(out, found)?,
        Err(refusal) => refused(out, refusal)?,
    }
    writeln!(out)
}

// The header alone.
pub fn show_header(out: &mut impl Write, case: &Case) -> Result<()> {
    case.begin(out)?;
    match sheet::read_header(case.bytes) {
        Ok(h) => {
            write_word(out, "header")?;
            header(out, h)?;
        }
        Err(refusal) => refused(out, refusal)?,
    }
    writeln!(out)
}

// A record's own bytes, by its number.
fn show_record(out: &mut impl Write, case: &Case, number: u32) -> Result<()> {
    case.begin(out)?;
    write_numbers(out, &[number as usize])?;
    write_word(out, "is")?;
    for byte in sheet::record_part(case.bytes, number) {
        write_numbers(out, &[usize::from(*byte)])?;
    }
    writeln!(out)
}

// Those of the first four numbers, and of two large ones.
pub fn show_records(out: &mut impl Write, case: &Case) -> Result<()> {
    for number in [0, 1, 2, 3, 65_536, u32::MAX] {
        show_record(out, case, number)?;
    }
    Ok(())
}

// The sheet and every truncation of it.
pub fn show_cuts(out: &mut impl Write, case: &Case) -> Result<()> {
    for count in 0..=case.bytes.len() {
        show_sheet(out, &case.cut(count))?;
    }
    Ok(())
}
