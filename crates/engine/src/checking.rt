// The check of a sheet: all facts, and the verdict; on a consistent sheet one reply a question. The buffers are parameters
// one by one, as C lends them: what becomes of lent bytes is known for the fields of one struct, and a growth is one. A
// sheet's bytes stand beside what was read of them: `Accepted` holds none, so that a user can keep it.
ghost use Rattle.std.specs.Prelude.{◌≤◌, length, replicate, map, None, ◌≡◌};
ghost use Rattle.sheet.specs.Headers.{size_for};
ghost use Rattle.sheet.specs.Sheets.{longest, sheet_of};
ghost use Rattle.rules.specs.Replies.{replies_of, reply_number};
ghost use Rattle.rules.specs.Verdicts.{verdict_by};
ghost use Rattle.facts.specs.Growth.{IsSame};
ghost use Rattle.closure.specs.Making.{Lawful, Made, variables_of};
ghost use Rattle.outcomes.specs.Outcomes.{packed};
ghost use Rattle.promise.specs.Checks.{of_refusal, where_consistent, Checked};
ghost use Rattle.promise.specs.Promise.{Means};
ghost use Rattle.engine.specs.Steps.{Answering, Accepting, Filled};

use crate::sheets::reply_all;
use closure::{Closed, make};
use facts::Growth;
use outcomes::{Outcome, judge, outcome_of};
use rules::Verdict;
use selections::Groups;
use sheet::{Accepted, Refusal};
use statements::{Lists, gather};
use table::{Queue, Table};

// The outcome of a refusal. Narrowed by `as`, and no `From`: it asks that the offset is not beyond the longest sheet.
fn refused(refusal: Refusal) -> Outcome
    requires { refusal.at ≤ longest }
    ensures { result ≡ of_refusal refusal }
{
    Outcome::Refused(refusal.fault, refusal.at as u16)
}

// Groups the selections of the lists, and fills the first table with all facts that follow from what stands in them.
pub(crate) fn close(
    facts: &mut [u8],
    n: usize,
    lists: &Lists,
    groups: &mut Groups,
    queue: &mut Queue,
)
    requires { Lawful n lists.now.pairs.items lists.now.selections.items (length facts.old) }
    ensures made { Made n lists.now.pairs.items lists.now.selections.items groups.new facts.new }
{
    let mut growth = Growth {
        cells: facts,
        n,
        queue,
    };
    make(
        &mut growth,
        groups,
        lists.pairs.as_slice(),
        lists.selections.as_slice(),
    );
}

// The replies to all questions of consistent statements, tried in a copy of their table, which is cleared then.
fn reply_in_copy(
    sheet: &[u8],
    accepted: Accepted,
    closed: &Closed,
    growth: &mut Growth,
    groups: &mut Groups,
    replies: &mut [u8],
)
    requires answering { Answering sheet.now accepted closed.now groups.old (sheet_of sheet.now).stated
        growth.old.cells.now replies.old }
    requires sizes { variables_of closed.now ≡ growth.old.n }
    requires consistent { closed.now.clash ≡ None }
    ensures cleared { growth.new.cells.now ≡ replicate (length growth.old.cells.now) 0 }
    ensures same { IsSame growth.old growth.new }
    ensures replied { replies.new ≡ map reply_number (replies_of (sheet_of sheet.now)) }
{
    growth.copy_from(closed.table);
    reply_all(sheet, accepted, closed, growth, groups, replies);
    growth.clear();
}

// The same in the second table, where the statements are consistent; nothing where they clash.
#[tactic(auto, unfolding(promise::specs::Checks::where_consistent))]
fn answer(
    sheet: &[u8],
    accepted: Accepted,
    closed: &Closed,
    groups: &mut Groups,
    work: &mut [u8],
    queue: &mut Queue,
    replies: &mut [u8],
)
    requires { Answering sheet.now accepted closed.now groups.old (sheet_of sheet.now).stated work.old replies.old }
    ensures cleared { work.new
        ≡ where_consistent (verdict_by closed.now.clash) (replicate (length work.old) 0) work.old }
    ensures replied { replies.new
        ≡ where_consistent (verdict_by closed.now.clash) (map reply_number (replies_of (sheet_of sheet.now))) replies.old }
{
    let Verdict::Consistent = Verdict::from(closed.clash) else {
        return;
    };
    let mut growth = Growth {
        cells: work,
        n: closed.table.n,
        queue,
    };
    reply_in_copy(sheet, accepted, closed, &mut growth, groups, replies);
}

// The check of an accepted sheet, on buffers of exactly the size in use.
fn check_accepted(
    sheet: &[u8],
    accepted: Accepted,
    facts: &mut [u8],
    work: &mut [u8],
    replies: &mut [u8],
) -> Outcome
    requires { Accepting sheet.now accepted facts.old work.old replies.old }
    ensures { Filled (sheet_of sheet.now) work.old replies.old facts.new work.new replies.new result }
{
    let n = usize::from(accepted.header.variables);
    let mut lists = Lists::empty();
    gather(sheet, accepted.header, &mut lists);
    let mut groups = Groups::empty();
    let mut queue = Queue::new();
    close(facts, n, &lists, &mut groups, &mut queue);
    let table = Table { cells: facts, n };
    let closed = Closed::new(&table, lists.selections.as_slice(), &lists.labels);
    answer(
        sheet,
        accepted,
        &closed,
        &mut groups,
        work,
        &mut queue,
        replies,
    );
    outcome_of(Verdict::from(closed.clash), &table)
}

// The check of what is judged first: refused, or accepted.
#[tactic(auto, using(outcomes::proofs::Judging::refused_soon))]
fn check_judged(sheet: &[u8], facts: &mut [u8], work: &mut [u8], replies: &mut [u8]) -> Outcome
    ensures { Checked sheet.now facts.old work.old replies.old facts.new work.new replies.new result }
{
    match judge(sheet, facts.len(), work.len(), replies.len()) {
        Err(refusal) => refused(refusal),
        Ok(accepted) => {
            let size = accepted.header.table_size();
            let count = accepted.header.reply_count();
            check_accepted(
                sheet,
                accepted,
                &mut facts[..size],
                &mut work[..size],
                &mut replies[..count],
            )
        }
    }
}

// Checks a sheet with two tables and a reply buffer: any input is accepted or refused, and what is told is true of
// trees.
pub fn check(sheet: &[u8], facts: &mut [u8], work: &mut [u8], replies: &mut [u8]) -> Outcome
    ensures checked { Checked sheet.now facts.old work.old replies.old facts.new work.new replies.new result }
    ensures means { Means sheet.now facts.old work.old replies.old facts.new replies.new (packed result) }
{
    check_judged(sheet, facts, work, replies)
}
