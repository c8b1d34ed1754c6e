// What is printed of a sheet: outcome, labels and replies, a line for each thing that is told.
ghost use Rattle.std.specs.Prelude.{◌<◌, length, get_or, [], ◌≡◌};
ghost use Rattle.labels.specs.Roots.{root_at};
ghost use Rattle.lines.specs.Lines.{outcome_line, var_line, ask_line};
ghost use Rattle.lines.specs.Printouts.{reply_told, lines_in};

use crate::line::Line;
use labels::RootLabels;
use outcomes::Outcome;
use rules::Reply;

// Of a sheet of so many variables: its outcome, the labels of the variables, and a reply byte for each question.
#[derive(Clone, Copy)]
pub struct Printout<'a> {
    pub variables: u8,
    pub outcome: Outcome,
    pub labels: RootLabels,
    pub replies: &'a [u8],
}

// The first line.
#[tactic(auto, unfolding(crate::specs::Lines::outcome_line))]
fn outcome_line(variables: u8, outcome: Outcome) -> Line
    ensures { result.bytes.items ≡ outcome_line variables outcome }
{
    match outcome {
        Outcome::Consistent(orderings, compatibilities) => Line::start(b"consistent")
            .number(u64::from(variables))
            .number(u64::from(orderings))
            .number(u64::from(compatibilities))
            .end(),
        Outcome::Clash(i, j) => Line::start(b"clash")
            .number(u64::from(i.0))
            .number(u64::from(j.0))
            .end(),
        Outcome::Refused(fault, at) => Line::start(b"refused")
            .number(u64::from(u8::from(fault)))
            .number(u64::from(at))
            .end(),
    }
}

// The line of variable i, with the label that is told of it, or a dash.
#[tactic(auto, unfolding(crate::specs::Lines::var_line))]
fn var_line(labels: &RootLabels, i: u8) -> Line
    ensures { result.bytes.items ≡ var_line (root_at labels.now) i }
{
    let line = Line::start(b"var").number(u64::from(i));
    match labels.of(usize::from(i)) {
        None => line.word(b"-").end(),
        Some(label) => line.number(u64::from(label.0)).end(),
    }
}

// The line of question q, with the reply to it.
#[tactic(auto, unfolding(crate::specs::Lines::ask_line))]
fn ask_line(q: usize, reply: Reply) -> Line
    ensures { result.bytes.items ≡ ask_line q reply }
{
    // by `as`: a usize has no `From` into u64
    let line = Line::start(b"ask").number(q as u64);
    match reply {
        Reply::Always => line.word(b"always").end(),
        Reply::Never => line.word(b"never").end(),
        Reply::Open => line.word(b"open").end(),
    }
}

// The reply of a reply byte; one that stands for none is told as open, which promises nothing.
fn reply_told(byte: u8) -> Reply
    ensures { result ≡ reply_told byte }
{
    Reply::try_from(byte).unwrap_or(Reply::Open)
}

impl Printout<'_> {
    // How many lines there are.
    #[tactic(auto, using(crate::proofs::Numbering::which_line))]
    pub fn count(&self) -> usize
        ensures { result ≡ length (lines_in self.now) }
    {
        match self.outcome {
            Outcome::Consistent(_, _) => 1 + usize::from(self.variables) + self.replies.len(),
            Outcome::Clash(_, _) => 1,
            Outcome::Refused(_, _) => 1,
        }
    }

    // Line k.
    #[tactic(auto, using(crate::proofs::Numbering::which_line))]
    pub(crate) fn line(&self, k: usize) -> Line
        requires { k < length (lines_in self.now) }
        ensures { result.bytes.items ≡ get_or (lines_in self.now) k [] }
    {
        let variables = usize::from(self.variables);
        if k == 0 {
            outcome_line(self.variables, self.outcome)
        } else if k <= variables {
            // by `as`: it is below the number of variables
            var_line(&self.labels, (k - 1) as u8)
        } else {
            let q = k - 1 - variables;
            ask_line(q, reply_told(self.replies[q]))
        }
    }
}
