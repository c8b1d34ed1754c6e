// Records and questions: one reader of an item, told its place.
ghost use Rattle.std.specs.Prelude.{◌≡◌};
ghost use Rattle.fields.specs.Fields.{variable_field, field_if};
ghost use Rattle.fields.specs.Refusals.{defined_bits, several_bits, bad_item_map};
ghost use Rattle.items.specs.Items.{map_field, edge_field, label_field, fields_at, item_at, question_at, items_end};
ghost use Rattle.items.specs.Paths.{path_field};
ghost use Rattle.items.specs.Questions.{question_of};
ghost use Rattle.items.specs.Statements.{ordering_of, compatibility_of, selection_of, labelling_of, statement_of};

use crate::paths::{Path, read_path};
use fields::{
    Cursor, Fault, Feature, Field, Label, Place, Read, Refusal, Variable, has_bit, read_byte,
    read_if, read_variable, read_word,
};

// What a record states and a question asks.
#[derive(Clone, Copy, Debug, PartialEq, Eq)]
pub enum Statement {
    // i ≤ j
    Ordering(Variable, Variable),
    // i ~ j
    Compatibility(Variable, Variable),
    // i[f]j
    Selection(Variable, Feature, Variable),
    // a(i)
    Labelling(Variable, Label),
}

// What a question asks.
#[derive(Clone, Copy, Debug, PartialEq, Eq)]
pub enum Question {
    // whether a statement holds
    Holds(Statement),
    // whether a variable has a path
    HasPath(Variable, Path),
}

// A feature, and the child that it leads to.
#[derive(Clone, Copy, Debug, PartialEq, Eq)]
pub struct Edge {
    pub feature: Feature,
    pub child: Variable,
}

// The fields of a record or question, those behind the subject where their bits stand.
#[derive(Clone, Copy, Debug, PartialEq, Eq)]
pub struct Item {
    pub subject: Variable,
    pub target: Option<Variable>,
    pub partner: Option<Variable>,
    pub edge: Option<Edge>,
    pub label: Option<Label>,
    pub path: Option<Path>,
}

// An item's map, a bit for each field behind the subject. It stays the format's byte: has_bit is promised of any byte.
const TARGET: u8 = 1;

const PARTNER: u8 = 2;

const EDGE: u8 = 4;

const LABEL: u8 = 8;

const PATH: u8 = 16;

// A map other than one bit alone.
#[tactic(auto, unfolding(fields::specs::Refusals::several_bits, fields::specs::Tests::same))]
fn has_several_bits(map: u8) -> bool
    ensures { result ≡ several_bits map }
{
    !matches!(map, TARGET | PARTNER | EDGE | LABEL | PATH)
}

// The sum of the bits that a place defines: 0 to 3, and 4 in a question.
fn defined_bits(place: Place) -> u8
    ensures { result ≡ defined_bits place }
{
    match place {
        Place::Record => TARGET | PARTNER | EDGE | LABEL,
        Place::Question => TARGET | PARTNER | EDGE | LABEL | PATH,
    }
}

// Row 5 of the refusals.
#[tactic(auto, unfolding(fields::specs::Refusals::bad_item_map, fields::specs::Tests::less, fields::specs::Tests::same))]
fn is_bad_item_map(place: Place, map: u8) -> bool
    ensures { result ≡ bad_item_map place map }
{
    map == 0 || defined_bits(place) < map || (place == Place::Question && has_several_bits(map))
}

// An item's map.
#[tactic(auto, unfolding(crate::specs::Items::map_field, fields::specs::Tests::pick))]
fn read_map(place: Place, sheet: &[u8], from: Cursor) -> Read<u8>
    ensures { result ≡ map_field place sheet.now from }
{
    let map = read_byte(sheet, from)?;
    if is_bad_item_map(place, map.value) {
        return Err(Refusal {
            fault: Fault::ItemMap,
            at: from.at,
        });
    }
    Ok(map)
}

// A feature and a child.
#[tactic(auto, unfolding(crate::specs::Items::edge_field))]
fn read_edge(sheet: &[u8], n: u8, from: Cursor) -> Read<Edge>
    ensures { result ≡ edge_field sheet.now n from }
{
    let feature = read_word(sheet, from)?;
    let child = read_variable(sheet, n, feature.next)?;
    Ok(Field {
        value: Edge {
            feature: Feature(feature.value),
            child: child.value,
        },
        next: child.next,
    })
}

// A label.
#[tactic(auto, unfolding(crate::specs::Items::label_field))]
fn read_label(sheet: &[u8], from: Cursor) -> Read<Label>
    ensures { result ≡ label_field sheet.now from }
{
    Ok(read_word(sheet, from)?.map(Label))
}

// A variable that is there only where its bit stands, which is a flag as at `read_if`.
fn read_variable_if(stands: bool, sheet: &[u8], n: u8, from: Cursor) -> Read<Option<Variable>>
    ensures { result ≡ field_if stands (variable_field sheet.now n from) from }
{
    read_if(stands, from, |at| read_variable(sheet, n, at))
}

// The fields behind the subject, by rising bit.
// Sheet, count and cursor are no struct: the header gives the count, map and label need none, a read moves the cursor.
#[tactic(auto, unfolding(crate::specs::Items::fields_at))]
fn read_fields(sheet: &[u8], n: u8, map: u8, subject: Variable, from: Cursor) -> Read<Item>
    ensures { result ≡ fields_at sheet.now n map subject from }
{
    let target = read_variable_if(has_bit(TARGET, map), sheet, n, from)?;
    let partner = read_variable_if(has_bit(PARTNER, map), sheet, n, target.next)?;
    let edge = read_if(
        has_bit(EDGE, map),
        partner.next,
        |at| read_edge(sheet, n, at),
    )?;
    let label = read_if(has_bit(LABEL, map), edge.next, |at| read_label(sheet, at))?;
    Ok(Field {
        value: Item {
            subject,
            target: target.value,
            partner: partner.value,
            edge: edge.value,
            label: label.value,
            path: None,
        },
        next: label.next,
    })
}

// A path that is there only where its bit stands, which is a flag as at `read_if`.
fn read_path_if(stands: bool, sheet: &[u8], from: Cursor) -> Read<Option<Path>>
    ensures { result ≡ field_if stands (path_field sheet.now from) from }
{
    read_if(stands, from, |at| read_path(sheet, at))
}

// The item at a cursor, over n variables.
#[tactic(auto, unfolding(crate::specs::Items::item_at))]
pub fn read_item(place: Place, sheet: &[u8], n: u8, from: Cursor) -> Read<Item>
    ensures { result ≡ item_at place sheet.now n from }
{
    let map = read_map(place, sheet, from)?;
    let subject = read_variable(sheet, n, map.next)?;
    let fields = read_fields(sheet, n, map.value, subject.value, subject.next)?;
    let path = read_path_if(has_bit(PATH, map.value), sheet, fields.next)?;
    Ok(Field {
        value: Item {
            path: path.value,
            ..fields.value
        },
        next: path.next,
    })
}

// A record at a cursor.
pub fn read_record(sheet: &[u8], n: u8, from: Cursor) -> Read<Item>
    ensures { result ≡ item_at Place.Record sheet.now n from }
{
    read_item(Place::Record, sheet, n, from)
}

// The statement that each field makes with the subject, where it is there. Alike but for the case that each makes: to
// hand the case in would be longer than they are.
impl Item {
    pub fn ordering(self) -> Option<Statement>
        ensures { result ≡ ordering_of self }
    {
        self.target
            .map(|target| Statement::Ordering(self.subject, target))
    }

    pub fn compatibility(self) -> Option<Statement>
        ensures { result ≡ compatibility_of self }
    {
        self.partner
            .map(|partner| Statement::Compatibility(self.subject, partner))
    }

    pub fn selection(self) -> Option<Statement>
        ensures { result ≡ selection_of self }
    {
        self.edge.map(|edge| Statement::Selection(self.subject, edge.feature, edge.child))
    }

    pub fn labelling(self) -> Option<Statement>
        ensures { result ≡ labelling_of self }
    {
        self.label
            .map(|label| Statement::Labelling(self.subject, label))
    }
}

// The statement of the first field that is there. No question that is read comes to the 0 (sheet: question_alone).
#[tactic(auto, unfolding(crate::specs::Statements::statement_of))]
fn statement_of(x: Item) -> Statement
    ensures { result ≡ statement_of x }
{
    x.ordering()
        .or(x.compatibility())
        .or(x.selection())
        .unwrap_or(Statement::Labelling(x.subject, x.label.unwrap_or(Label(0))))
}

impl From<Item> for Question {
    // What a question asks.
    ghost from_gives = { λ item question. question ≡ question_of item };

    #[tactic(auto, unfolding(crate::specs::Questions::question_of))]
    fn from(item: Item) -> Question {
        match item.path {
            Some(path) => Question::HasPath(item.subject, path),
            None => Question::Holds(statement_of(item)),
        }
    }
}

// A question at a cursor.
#[tactic(auto, unfolding(crate::specs::Items::question_at))]
pub fn read_question(sheet: &[u8], n: u8, from: Cursor) -> Read<Question>
    ensures { result ≡ question_at sheet.now n from }
{
    Ok(read_item(Place::Question, sheet, n, from)?.map(Question::from))
}

// Where so many items from a cursor on end. No struct of these, as above: count and cursor change at each turn.
#[tactic(auto, using(fields::proofs::Runs::run_over, fields::proofs::Runs::run_step, fields::proofs::Runs::run_refused))]
pub fn items_end(
    count: u16,
    place: Place,
    sheet: &[u8],
    n: u8,
    from: Cursor,
) -> Result<Cursor, Refusal>
    ensures { result ≡ items_end count place sheet.now n from }
{
    let mut at = from;
    for _ in 0..count {
        at = read_item(place, sheet, n, at)?.next;
    }
    Ok(at)
}
