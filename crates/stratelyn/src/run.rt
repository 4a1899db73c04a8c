// The run of what a reader gives, answered in a host's bytes.
ghost use Rattle.std.specs.Prelude.{◌≤◌, ◌≡◌, T, not, length};
ghost use Rattle.std.specs.Float.{binary64};
ghost use Rattle.std.specs.Float.Ieee.{is_nan, to_bits, of_bits};
ghost use Rattle.fields.specs.Refusals.{acceptance_number, number};
ghost use Rattle.stages.specs.Run.{result_of, result_read};
ghost use Rattle.entries.specs.Answers.{acceptance_values, refusal_values};
ghost use Rattle.numbers.specs.Numbers.{room};
ghost use Rattle.stratelyn.specs.Hosts.{reply_bytes, Served};
ghost use Rattle.stratelyn.specs.Conditions.{Acceptable, Rowed, Reported, Replied};

use entries::Reply;
use fields::limits::{MOST_FIELDS, MOST_REPORT, MOST_SCRATCH, PER_ROW};
use fields::read::{Fields, Reader};
use fields::refusal::Refusal;

const REPLY_BYTES: usize = 64;

// What an accepted run returns.
const ACCEPTED: u64 = 0;

// The third of the lent buffers.
const REPLY: u64 = 3;

// A refusal: its number, and its values for the reply.
fn refuse(refusal: Refusal, reply: &mut [u8]) -> u64
    requires { reply_bytes ≤ length reply.old }
    ensures { Replied (number refusal) (refusal_values refusal) result reply.new reply.old }
{
    numbers::write_numbers(&[refusal.place(), 0, 0, 0, 0, 0, 0, 0], reply);
    refusal.number()
}

// The bits of a double, which read back as that double.
fn bits_of(double: f64) -> u64
    requires { T (not (is_nan double)) }
    ensures bits { result ≡ to_bits binary64 double }
    ensures back { of_bits binary64 result ≡ double }
{
    f64::to_bits(double)
}

// An accepted run: its number, and its values for the reply.
fn accept(given: Reply, reply: &mut [u8]) -> u64
    requires { Acceptable given.last reply.old }
    ensures replied { Replied acceptance_number (acceptance_values given.before given.last) result reply.new reply.old }
    ensures last_value { of_bits binary64 (to_bits binary64 given.last) ≡ given.last }
{
    let before = given.before;
    let numbers = [
        0,
        before.friction,
        before.slip,
        before.deflector,
        before.early_relaxation,
        before.shortening,
        before.stress,
        bits_of(given.last),
    ];
    numbers::write_numbers(&numbers, reply);
    ACCEPTED
}

// The run of fields that a reader has filled, with the room that a host's buffers have. Its rows go to the front of `rows`.
fn run_rows(
    fields: &Fields,
    report_bytes: usize,
    scratch_bytes: usize,
    rows: &mut [u64; MOST_REPORT],
) -> Result<Reply, Refusal>
    ensures { Rowed (result_of fields.now (room report_bytes) (room scratch_bytes))
        (length fields.now.ages) (room report_bytes) result rows.new }
{
    let mut scratch = [0u64; MOST_SCRATCH];
    let needed = PER_ROW * fields.counts.ages;
    let report_room = numbers::room_up_to(needed, report_bytes);
    let scratch_room = numbers::room_up_to(needed, scratch_bytes);
    entries::run::run_fields(
        fields,
        &mut rows[..report_room],
        &mut scratch[..scratch_room],
    )
}

// The run of what a reader gives, whose rows go to the front of the report.
fn run<R: Reader>(
    input: &[R::Item],
    report: &mut [u8],
    scratch_bytes: usize,
) -> Result<Reply, Refusal>
    ensures { Reported (result_read (R.outcome input.now) (room (length report.old)) (room scratch_bytes))
        result report.new report.old }
{
    let mut numbers = [0u64; MOST_FIELDS];
    let counts = R::read(input, &mut numbers)?;
    let fields = Fields::new(&numbers, counts);
    let mut rows = [0u64; MOST_REPORT];
    let given = run_rows(&fields, report.len(), scratch_bytes, &mut rows)?;
    numbers::write_numbers(&rows[..PER_ROW * fields.counts.ages], report);
    Ok(given)
}

// The run of what a reader gives, answered.
pub(crate) fn serve<R: Reader>(
    input: &[R::Item],
    report: &mut [u8],
    scratch: &mut [u8],
    reply: &mut [u8],
) -> u64
    ensures { Served (R.outcome input.now) result report.new report.old
        scratch.new scratch.old reply.new reply.old }
{
    if reply.len() < REPLY_BYTES {
        return Refusal::Buffers(REPLY).number();
    }
    match run::<R>(input, report, scratch.len()) {
        Ok(given) => accept(given, reply),
        Err(refusal) => refuse(refusal, reply),
    }
}
