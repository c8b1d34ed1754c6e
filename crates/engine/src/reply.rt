// The answer to one question: always by support, else never by a trial that clashes, else open.
ghost use Rattle.std.specs.Prelude.{◌≤◌, ◌≡◌};
ghost use Rattle.fields.specs.Limits.{most_features};
ghost use Rattle.items.specs.Paths.{features_in};
ghost use Rattle.items.specs.Questions.{Asks, holds, has_path, query_of};
ghost use Rattle.items.specs.Statements.{Names};
ghost use Rattle.closure.specs.Trials.{Restored};
ghost use Rattle.engine.specs.Replying.{Replying, Following, IsRead, Held, ReplyTold, PathReplied};

use answers::supports;
use closure::{Closed, trial};
use facts::Growth;
use fields::{Feature, MOST_FEATURES, Variable};
use items::{Question, Statement, path_at};
use rules::Reply;
use selections::Groups;

// The reply to whether x holds.
fn reply_statement(closed: &Closed, growth: &mut Growth, groups: &mut Groups, x: Statement) -> Reply
    requires replying { Replying closed.now growth.old groups.old }
    requires names { Names growth.old.n x }
    ensures told { ReplyTold growth.old.n (Held growth.old.n closed.now groups.old)
        (holds x) result }
    ensures restored { Restored growth.old growth.new groups.old groups.new }
{
    if supports(closed.table, closed.selections, closed.labels, x) {
        Reply::Always
    } else if trial(closed, growth, groups, x) {
        Reply::Never
    } else {
        Reply::Open
    }
}

// The reply to whether i has a path: it is tried by no derivation, since any path can be added.
fn reply_path(closed: &Closed, i: Variable, path: [Feature; MOST_FEATURES], count: u8) -> Reply
    requires following { Following closed.now i.0 }
    requires features { count ≤ most_features }
    ensures { PathReplied closed.now i (features_in count path) result }
{
    if !paths::has_path(closed.table, closed.selections, i, path, count) {
        return Reply::Open;
    }
    Reply::Always
}

// The reply to a question of a sheet; table and groups are then as they were.
pub(crate) fn reply(
    sheet: &[u8],
    closed: &Closed,
    growth: &mut Growth,
    groups: &mut Groups,
    question: Question,
) -> Reply
    requires replying { Replying closed.now growth.old groups.old }
    requires names { Asks growth.old.n (query_of sheet.now question) }
    requires read { IsRead sheet.now question }
    ensures told { ReplyTold growth.old.n (Held growth.old.n closed.now groups.old)
        (query_of sheet.now question) result }
    ensures restored { Restored growth.old growth.new groups.old groups.new }
{
    match question {
        Question::Holds(x) => reply_statement(closed, growth, groups, x),
        Question::HasPath(i, path) => {
            reply_path(
                closed,
                i,
                path_at(sheet, path.first, path.count),
                path.count,
            )
        }
    }
}
