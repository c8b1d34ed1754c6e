// The sheet that is read.
ghost use Rattle.std.specs.Prelude.{◌+◌, ◌≡◌, take, IfSome, IfOk};
ghost use Rattle.sheet.specs.Sheets.{longest};

use engine::LONGEST_SHEET;
use std::alloc::Global;
use std::io::{self, Read};

// The first bytes of the input, one more than the longest sheet has, to its end where it has no more. What stands
// behind them changes nothing that is printed: `beyond_printed` (crate lines, Beyond).
pub fn read_sheet<R: Read + Drop>(alloc: Global, input: R) -> io::Result<Vec<u8>>
    ensures { IfOk result (λ v. IfSome (R.remaining input) (λ b. v.items ≡ take (longest + 1) b)) }
{
    let mut sheet = Vec::new(alloc);
    // by `as`: usize has no `From` into u64
    input
        .take(LONGEST_SHEET as u64 + 1)
        .read_to_end(&mut sheet)?;
    Ok(sheet)
}
