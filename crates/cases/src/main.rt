// Runs the cases of the text on standard input, one to a line: `word name: byte byte ..`. The word says what is shown
// of the sheet that the bytes are, behind the line's word and name. Any other line is skipped.
#![tactic(auto)]

mod case;
mod readings;

use case::Case;
use std::alloc::{AllocError, Global};
use std::io::{self, BufWriter, Write};

// A number with one digit more, kept small.
fn with_digit(value: u32, digit: u8) -> u32 {
    value % 1000 * 10 + u32::from(digit) % 16
}

// Narrowed by `as`, below 256. No `parse`: a comment that has a colon is read too, and its words are no numbers.
fn decimal(digits: &str) -> u8 {
    (digits.bytes().fold(0, with_digit) % 256) as u8
}

// The bytes of a sheet, as numbers that spaces part.
fn bytes_of(alloc: Global, numbers: &str) -> Result<Vec<u8>, AllocError> {
    numbers.split_ascii_whitespace().map(decimal).collect(alloc)
}

// One line of the text.
fn run(out: &mut impl Write, alloc: Global, line: &str) -> io::Result<()> {
    let Some((name, numbers)) = line.split_once(':') else {
        return Ok(());
    };
    let word = name.split_ascii_whitespace().next().unwrap_or("");
    let sheet = bytes_of(alloc, numbers)?;
    let bytes = sheet.as_slice();
    Case { word, name, bytes }.show(out)
}

fn main(rt: HostRuntime) -> io::Result<()> {
    let alloc = rt.alloc();
    let mut out = BufWriter::new(alloc, io::writer(&rt))?;
    for line in rt.lines(alloc) {
        run(&mut out, alloc, line?.as_str())?;
    }
    out.flush()
}
