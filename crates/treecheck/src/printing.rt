// The lines of a sheet, printed block by block.
ghost use Rattle.std.specs.Prelude.{◌≡◌};
ghost use Rattle.std.specs.List.{concat};
ghost use Rattle.lines.specs.Lines.{printed};
ghost use Rattle.lines.specs.Printouts.{lines_in};
ghost use Rattle.lines.specs.Told.{Told};
ghost use Rattle.treecheck.specs.Writing.{AppendsOrBegins};

use crate::writing::write_bytes;
use engine::{LARGEST_TABLE, Labelled, MOST_REPLIES};
use lines::Printout;
use std::io::{self, Write};

// How many bytes are written at once; there is room for every line.
const BLOCK_SIZE: usize = 16384;

// The printout of a checked sheet.
fn printout<'a>(sheet: &[u8], told: Labelled, replies: &'a [u8]) -> Printout<'a>
    requires { Told sheet.now told.outcome told.labels replies.now }
    ensures { lines_in result ≡ printed sheet.now }
{
    let Ok(header) = engine::read_header(sheet) else {
        return Printout {
            variables: 0,
            outcome: told.outcome,
            labels: told.labels,
            replies: &[],
        };
    };
    Printout {
        variables: header.variable_count(),
        outcome: told.outcome,
        labels: told.labels,
        replies: &replies[..header.reply_count()],
    }
}

// Writes all lines of a printout.
fn print_lines<W: Write>(printout: &Printout, out: &mut W) -> io::Result<()>
    ensures { AppendsOrBegins (W.contents out.old) (W.contents out.new) (concat (lines_in printout.now)) result }
{
    let mut bytes = [0; BLOCK_SIZE];
    let mut next = 0;
    while next < printout.count() {
        let block = printout.write(next, &mut bytes);
        write_bytes(&bytes[..block.length], out)?;
        next = block.next;
    }
    Ok(())
}

// Checks a sheet, and writes all lines of its outcome.
pub fn print<W: Write>(sheet: &[u8], out: &mut W) -> io::Result<()>
    ensures { AppendsOrBegins (W.contents out.old) (W.contents out.new) (concat (printed sheet.now)) result }
{
    let mut facts = [0; LARGEST_TABLE];
    let mut work = [0; LARGEST_TABLE];
    let mut replies = [0; MOST_REPLIES];
    let told = engine::check_labelled(sheet, &mut facts, &mut work, &mut replies);
    print_lines(&printout(sheet, told, &replies), out)
}
