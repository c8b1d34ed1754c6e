// Sets of variables as rows of bits. Written out word by word, with no index that is not known and no early way out, so
// that a row stays in registers.
ghost use Rattle.std.specs.Prelude.{◌<◌, ◌≡◌, false};
ghost use Rattle.fields.specs.Limits.{most_variables};
ghost use Rattle.fields.specs.Tests.{same};
ghost use Rattle.rules.specs.Connectives.{◌or◌};
ghost use Rattle.rows.specs.Rows.{in_row, has_some, Members};

use fields::MOST_VARIABLES;

// Members are below this.
pub const HEIGHT: usize = MOST_VARIABLES;

// Words of a row: member j has bit j % 64 of word j / 64.
pub const WIDTH: usize = HEIGHT / 64;

pub type Row = [u64; WIDTH];

// The row without members.
#[tactic(auto, using(crate::proofs::Words::no_members))]
pub fn none() -> Row
    ensures { Members result (λ j. false) }
{
    [0, 0]
}

// The row of j alone.
pub fn one(j: usize) -> Row
    requires { j < most_variables }
    ensures { Members result (λ k. same k j) }
{
    if j < 64 {
        [1 << j, 0]
    } else {
        [0, 1 << (j - 64)]
    }
}

// The members of either row.
pub fn either(r: Row, s: Row) -> Row
    ensures { Members result (λ j. in_row r j or in_row s j) }
{
    [r[0] | s[0], r[1] | s[1]]
}

// A row with j too.
pub fn with(r: Row, j: usize) -> Row
    requires { j < most_variables }
    ensures { Members result (λ k. in_row r k or same k j) }
{
    either(r, one(j))
}

// Whether j is a member; what is no variable is none. Both words are asked: one chosen would be read by an index.
pub fn has_member(r: Row, j: usize) -> bool
    ensures { result ≡ in_row r j }
{
    let low = (r[0] >> (j % 64)) & 1 == 1;
    let high = (r[1] >> (j % 64)) & 1 == 1;
    if j < 64 { low } else { j < HEIGHT && high }
}

// Whether there is a member.
pub fn some(r: Row) -> bool
    ensures { result ≡ has_some r }
{
    (r[0] | r[1]) != 0
}
