// The path of a question: a count, and that many features of two bytes.
ghost use Rattle.std.specs.Prelude.{◌≡◌};
ghost use Rattle.fields.specs.Refusals.{bad_path_length};
ghost use Rattle.items.specs.Paths.{count_field, features_end, path_field, path_at};

use fields::{Cursor, Fault, Feature, Field, MOST_FEATURES, Read, Refusal, read_byte, read_word};

// How many features a path has, and where the first of them stands.
#[derive(Clone, Copy, Debug, PartialEq, Eq)]
pub struct Path {
    pub count: u8,
    pub first: Cursor,
}

// Row 10 of the refusals.
#[tactic(auto, unfolding(fields::specs::Refusals::bad_path_length, fields::specs::Tests::less, fields::specs::Tests::same))]
fn is_bad_path_length(count: u8) -> bool
    ensures { result ≡ bad_path_length count }
{
    count == 0 || MOST_FEATURES < usize::from(count)
}

// How many features follow.
#[tactic(auto, unfolding(crate::specs::Paths::count_field, fields::specs::Tests::pick))]
fn read_count(sheet: &[u8], from: Cursor) -> Read<u8>
    ensures { result ≡ count_field sheet.now from }
{
    let count = read_byte(sheet, from)?;
    if is_bad_path_length(count.value) {
        return Err(Refusal {
            fault: Fault::PathLength,
            at: from.at,
        });
    }
    Ok(count)
}

// Where so many features end.
#[tactic(auto, using(fields::proofs::Runs::run_over, fields::proofs::Runs::run_step, fields::proofs::Runs::run_refused))]
fn features_end(count: u8, sheet: &[u8], from: Cursor) -> Result<Cursor, Refusal>
    ensures { result ≡ features_end count sheet.now from }
{
    let mut at = from;
    for _ in 0..count {
        at = read_word(sheet, at)?.next;
    }
    Ok(at)
}

// A path.
#[tactic(auto, unfolding(crate::specs::Paths::path_field))]
pub(crate) fn read_path(sheet: &[u8], from: Cursor) -> Read<Path>
    ensures { result ≡ path_field sheet.now from }
{
    let count = read_count(sheet, from)?;
    let next = features_end(count.value, sheet, count.next)?;
    Ok(Field {
        value: Path {
            count: count.value,
            first: count.next,
        },
        next,
    })
}

// The features of a path, as many as there are places for; unused places are zero.
#[tactic(auto, using(crate::proofs::Places::placed_on))]
pub fn path_at(sheet: &[u8], from: Cursor, count: u8) -> [Feature; MOST_FEATURES]
    ensures { result ≡ path_at sheet.now from count }
{
    let mut path = [Feature(0); MOST_FEATURES];
    let mut at = from;
    for k in 0..usize::from(count).min(MOST_FEATURES) {
        let Ok(feature) = read_word(sheet, at) else {
            return path;
        };
        path[k] = Feature(feature.value);
        at = feature.next;
    }
    path
}
