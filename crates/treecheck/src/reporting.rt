// A sheet that is read, checked and printed, or what failed.
ghost use Rattle.treecheck.specs.Writing.{Reported};

use crate::printing::print;
use crate::reading::read_sheet;
use std::alloc::Global;
use std::io::{self, Read, Write};

// What failed, and why.
#[derive(Drop)]
pub enum Failure {
    Reading(io::Error),
    Writing(io::Error),
}

// Reads a sheet, checks it, and writes all lines of its outcome; nothing is written where it cannot be read.
pub fn report<R: Read + Drop, W: Write>(alloc: Global, input: R, out: &mut W) -> Result<(), Failure>
    ensures { Reported W.contents (R.remaining input) out.old out.new result }
{
    let sheet = match read_sheet(alloc, input) {
        Ok(sheet) => sheet,
        Err(error) => return Err(Failure::Reading(error)),
    };
    match print(sheet.as_slice(), out) {
        Ok(()) => Ok(()),
        Err(error) => Err(Failure::Writing(error)),
    }
}
