// Whole lines written into a lent array, as many as it has room for.
ghost use Rattle.lines.specs.Blocks.{BlockTold};
ghost use Rattle.lines.specs.Printouts.{lines_in};

use crate::printout::Printout;

// Whole lines that were written: how many bytes they are, and which line comes next.
#[derive(Clone, Copy)]
pub struct Block {
    pub length: usize,
    pub next: usize,
}

impl Printout<'_> {
    // Writes whole lines from line k on over the first bytes of an array, as many as it has room for.
    pub fn write(&self, k: usize, out: &mut [u8]) -> Block
        ensures { BlockTold (lines_in self.now) k out.old out.new result }
    {
        let mut length = 0;
        let mut next = k;
        while next < self.count() {
            let line = self.line(next);
            let text = line.bytes.as_slice();
            if out.len() - length < text.len() {
                return Block { length, next };
            }
            out[length..length + text.len()].copy_from_slice(text);
            length += text.len();
            next += 1;
        }
        Block { length, next }
    }
}
