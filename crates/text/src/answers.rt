// What is printed of a run: a line of number and place, or a line of the losses before the ages and a line for each age.
ghost use Rattle.text.specs.Columns.{Holds};
ghost use Rattle.text.specs.Conditions.{RoomForLine, RoomForText, AgesFit, lines_of_ages};
ghost use Rattle.text.specs.Text.{refusal_text, before_text, run_text};

use crate::columns;
use entries::run;
use fields::limits::{MOST_REPORT, MOST_SCRATCH, PER_ROW};
use fields::read::Fields;
use fields::refusal::Refusal;
use stages::before::BeforeAges;

// A refusal's line.
pub(crate) fn put_refusal(part: &mut [u8], refusal: Refusal) -> usize
    requires { RoomForLine part.old }
    ensures { Holds (refusal_text refusal) result part.new part.old }
{
    columns::put_line(part, &[refusal.number(), refusal.place()])
}

// The line of the losses before the ages and of the stress after them.
pub(crate) fn put_before(part: &mut [u8], before: BeforeAges) -> usize
    requires { RoomForLine part.old }
    ensures { Holds (before_text before) result part.new part.old }
{
    columns::put_line(
        part,
        &[
            before.friction,
            before.slip,
            before.deflector,
            before.early_relaxation,
            before.shortening,
            before.stress,
        ],
    )
}

// A line for each age: its number, its hour and its row.
#[tactic(auto, using(crate::proofs::Texts::none_lined, crate::proofs::Texts::next_lined))]
fn put_ages(part: &mut [u8], fields: &Fields, rows: &[u64]) -> usize
    requires { AgesFit fields.now.ages rows.now part.old }
    ensures { Holds (lines_of_ages 0 fields.now.ages rows.now) result part.new part.old }
{
    let rows = rows.chunks_exact(PER_ROW);
    let mut at = 0;
    for (passed, ((_, age), row)) in fields.ages().zip(rows).enumerate() {
        let numbers = [
            passed as u64 + 1,
            age.hour,
            row[0],
            row[1],
            row[2],
            row[3],
            row[4],
        ];
        at += columns::put_line(&mut part[at..], &numbers);
    }
    at
}

// What is printed of the run of fields that a reader has filled. `put_sheet` is like it in shape alone: another answer, in other lines.
pub(crate) fn put_run(part: &mut [u8], fields: &Fields) -> usize
    requires { RoomForText part.old }
    ensures { Holds (run_text fields.now) result part.new part.old }
{
    let mut report = [0u64; MOST_REPORT];
    let mut scratch = [0u64; MOST_SCRATCH];
    match run::run_fields(fields, &mut report, &mut scratch) {
        Err(refusal) => put_refusal(part, refusal),
        Ok(reply) => {
            let rows = &report[..PER_ROW * fields.counts.ages];
            let at = put_before(part, reply.before);
            at + put_ages(&mut part[at..], fields, rows)
        }
    }
}
