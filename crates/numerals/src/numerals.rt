// The numeral of a number of 64 bits: how long it is, and how it is written.
ghost use Rattle.std.specs.Prelude.{◌≡◌, ◌≤◌, ◌++◌, length, drop};
ghost use Rattle.numerals.specs.Numerals.{numeral};

// As many digits as a number of 64 bits can have.
pub const LONGEST_NUMERAL: usize = 20;

// How many digits the numeral of a number has.
#[tactic(auto, using(crate::proofs::Filling::lengths))]
pub fn numeral_length(n: u64) -> usize
    ensures { result ≡ length (numeral n) }
{
    let mut count = 1;
    let mut front = n;
    while front >= 10 {
        front /= 10;
        count += 1;
    }
    count
}

// Writes the numeral of a number over the first bytes of a lent array, and tells how many these are.
pub fn write_numeral(n: u64, out: &mut [u8]) -> usize
    requires { length (numeral n) ≤ length out.old }
    ensures length { result ≡ length (numeral n) }
    ensures written { out.new ≡ numeral n ++ drop (length (numeral n)) out.old }
{
    let length = numeral_length(n);
    fill(n, &mut out[..length]);
    length
}

// Fills a part with the numeral of a number, from the last digit to the first.
#[tactic(auto, using(crate::proofs::Filling::all_left))]
fn fill(n: u64, part: &mut [u8])
    requires { length part.old ≡ length (numeral n) }
    ensures { part.new ≡ numeral n }
{
    let mut rest = n;
    for i in (0..part.len()).rev() {
        part[i] = b'0' + (rest % 10) as u8;
        rest /= 10;
    }
}
