// The rows of the ages, and their way from the scratch to the report. Document 01 names the form of each step: "the rows of later ages go
// in the rest of the report buffer", so that the `&mut` part from the current row on is lent to the writer of the row, of the scratch too.
ghost use Rattle.std.specs.Prelude.{◌≡◌, ◌≤◌, length, take};
ghost use Rattle.fields.specs.Outcomes.{over};
ghost use Rattle.fields.specs.Limits.{scratch_room};
ghost use Rattle.entries.specs.Answers.{numbers_of_row};
ghost use Rattle.entries.specs.Conditions.{RoomForRows};

use fields::limits::PER_ROW;
use stages::intervals::Row;

// The numbers of a row, in the report's order.
pub(crate) fn numbers(row: Row) -> [u64; PER_ROW]
    ensures { result ≡ numbers_of_row row }
{
    [
        row.creep,
        row.shrinkage,
        row.relaxation,
        row.stress,
        row.gain,
    ]
}

// A row's numbers at the front of the part of a buffer that begins with it.
pub(crate) fn write_row(part: &mut [u64], row: &[u64])
    requires { length row.now ≤ length part.old }
    ensures { part.new ≡ over row.now part.old }
{
    part[..row.len()].copy_from_slice(row);
}

// The rows of so many ages, from the scratch to the report.
pub(crate) fn report_rows(ages: usize, scratch: &[u64], report: &mut [u64])
    requires { RoomForRows ages report.old scratch.now }
    ensures { report.new ≡ over (take (scratch_room ages) scratch.now) report.old }
{
    let rows = &scratch[..PER_ROW * ages];
    for (number, row) in rows.chunks_exact(PER_ROW).enumerate() {
        write_row(&mut report[PER_ROW * number..], row);
    }
}
