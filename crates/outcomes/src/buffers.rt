// All rows of the refusals in their order: the sheet, then the lent buffers against it.
ghost use Rattle.std.specs.Prelude.{◌≡◌, Err};
ghost use Rattle.fields.specs.Refusals.{refusal};
ghost use Rattle.outcomes.specs.Judged.{lent_to, judged};

use sheet::{Accepted, Fault, Refusal, read_sheet};

// A refusal of a lent buffer.
fn refuse(fault: Fault) -> Result<Accepted, Refusal>
    ensures { result ≡ Err (refusal fault 0) }
{
    Err(Refusal { fault, at: 0 })
}

// Rows 8 and 9.
#[tactic(auto, unfolding(fields::specs::Refusals::short_table, fields::specs::Refusals::short_replies, fields::specs::Tests::less, fields::specs::Tests::pick))]
fn judge_buffers(
    accepted: Accepted,
    facts: usize,
    work: usize,
    replies: usize,
) -> Result<Accepted, Refusal>
    ensures { result ≡ lent_to accepted facts work replies }
{
    let header = accepted.header;
    let size = header.table_size();
    if facts < size || work < size {
        return refuse(Fault::ShortTable);
    }
    if replies < header.reply_count() {
        return refuse(Fault::ShortReplies);
    }
    Ok(accepted)
}

// Accepts a sheet with the lengths of the lent buffers, or refuses them.
#[tactic(auto, unfolding(crate::specs::Judged::judged))]
pub fn judge(sheet: &[u8], facts: usize, work: usize, replies: usize) -> Result<Accepted, Refusal>
    ensures { result ≡ judged sheet.now facts work replies }
{
    let accepted = read_sheet(sheet)?;
    judge_buffers(accepted, facts, work, replies)
}
