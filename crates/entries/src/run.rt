// The run of an accepted member, of fields, and of what a reader reads, over lent buffers. Report and scratch are two parameters: a
// contract says of each what it was and what it is, which of two references in a struct reads no plainer.
ghost use Rattle.std.specs.Prelude.{◌≡◌, Ok, length};
ghost use Rattle.member.specs.Member.{checked_of};
ghost use Rattle.stages.specs.Run.{result_of};
ghost use Rattle.entries.specs.Answers.{Ran};
ghost use Rattle.entries.specs.Promise.{Promise};

use crate::{Reply, ages, rows};
use checks::buffers::Room;
use fields::limits::MOST_FIELDS;
use fields::read::{Fields, Reader};
use fields::refusal::Refusal;
use member::Member;
use stages::bounded::BoundedMember;
use stages::{before, ends};

// The run of an accepted member. Rows are made in the scratch, and go to the report once all ages are passed.
fn run_member(
    member: Member,
    fields: &Fields,
    report: &mut [u64],
    scratch: &mut [u64],
) -> Result<Reply, Refusal>
    requires { checked_of fields.now (length report.old) (length scratch.old) ≡ Ok member }
    ensures { Ran (result_of fields.now (length report.old) (length scratch.old))
        result report.new report.old scratch.new scratch.old }
{
    let ages = fields.counts.ages;
    let m = BoundedMember { member };
    let transfer = ends::end_at(m, member.own_weight_moment, member.hours.transfer);
    let before = before::begin(m, transfer)?;
    let last = ages::run_ages(m, fields.ages(), transfer, before.stress, scratch)?;
    rows::report_rows(ages, scratch, report);
    Ok(Reply {
        before,
        last: ticks::double_of_ticks(last as u32),
    })
}

// The run of fields that a reader has read.
pub fn run_fields(
    fields: &Fields,
    report: &mut [u64],
    scratch: &mut [u64],
) -> Result<Reply, Refusal>
    ensures { Ran (result_of fields.now (length report.old) (length scratch.old))
        result report.new report.old scratch.new scratch.old }
{
    let room = Room {
        report: report.len(),
        scratch: scratch.len(),
    };
    let member = member::check_member(fields, room)?;
    run_member(member, fields, report, scratch)
}

// The run of what a reader reads.
pub fn run<R: Reader>(
    input: &[R::Item],
    report: &mut [u64],
    scratch: &mut [u64],
) -> Result<Reply, Refusal>
    ensures { Promise (R.outcome input.now)
        result report.new report.old scratch.new scratch.old }
{
    let mut numbers = [0u64; MOST_FIELDS];
    let counts = R::read(input, &mut numbers)?;
    run_fields(&Fields::new(&numbers, counts), report, scratch)
}
