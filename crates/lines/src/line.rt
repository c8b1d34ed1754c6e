// A line as it is made: words one space apart, and a newline behind the last.
ghost use Rattle.std.specs.Prelude.{◌+◌, ◌≤◌, ◌<◌, length, ◌++◌, ◌≡◌, codes};
ghost use Rattle.numerals.specs.Numerals.{numeral};
ghost use Rattle.lines.specs.Blocks.{line_room, number_room};

use arrayvec::ArrayVec;
use numerals::{LONGEST_NUMERAL, write_numeral};

// Room that serves every line: a word of ten bytes, three numbers of 64 bits and what parts them are shorter.
pub const LINE_ROOM: usize = 80;

// What there is of it so far.
#[derive(Drop)]
pub(crate) struct Line {
    pub(crate) bytes: ArrayVec<u8, LINE_ROOM>,
}

impl Line {
    // A line of one word.
    pub(crate) fn start(word: &[u8]) -> Line
        requires { length word.now ≤ line_room }
        ensures bytes { result.bytes.items ≡ word.now }
        ensures size { length result.bytes.items ≡ length word.now }
    {
        let line = Line {
            bytes: ArrayVec::new(),
        };
        line.with(word)
    }

    // With these bytes behind it.
    fn with(mut self, text: &[u8]) -> Line
        requires { length self.bytes.items + length text.now ≤ line_room }
        ensures bytes { result.bytes.items ≡ self.bytes.items ++ text.now }
        ensures size { length result.bytes.items ≡ length self.bytes.items + length text.now }
    {
        // there is room, so no error is lost
        let _ = self.bytes.try_extend_from_slice(text);
        self
    }

    // With one more word.
    pub(crate) fn word(self, word: &[u8]) -> Line
        requires { length self.bytes.items + (1 + length word.now) ≤ line_room }
        ensures bytes { result.bytes.items ≡ self.bytes.items ++ (codes " " ++ word.now) }
        ensures size { length result.bytes.items ≡ length self.bytes.items + (1 + length word.now) }
    {
        self.with(b" ").with(word)
    }

    // With one more number.
    #[tactic(auto, using(numerals::proofs::Theorems::numeral_longest))]
    pub(crate) fn number(self, n: u64) -> Line
        requires { length self.bytes.items + number_room ≤ line_room }
        ensures bytes { result.bytes.items ≡ self.bytes.items ++ (codes " " ++ numeral n) }
        ensures size { length result.bytes.items ≤ length self.bytes.items + number_room }
    {
        let mut text = [0; LONGEST_NUMERAL];
        let count = write_numeral(n, &mut text);
        self.word(&text[..count])
    }

    // With its end.
    pub(crate) fn end(self) -> Line
        requires { length self.bytes.items < line_room }
        ensures { result.bytes.items ≡ self.bytes.items ++ codes "\n" }
    {
        self.with(b"\n")
    }
}
