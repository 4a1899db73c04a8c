// What is printed of an elongation sheet: a line of number and place, or a line for each segment and one for their sum and its measurable
// part.
ghost use Rattle.std.specs.Prelude.{◌*◌, ◌≤◌, length};
ghost use Rattle.text.specs.Columns.{Holds};
ghost use Rattle.text.specs.Conditions.{segment_line_bytes, RoomForText};
ghost use Rattle.text.specs.Text.{elongations_text, sheet_text_of};

use crate::{answers, columns};
use elongation::sheet;
use fields::limits::MOST_SEGMENTS;
use fields::read::Fields;

// A line for each segment: its number and its elongation.
fn put_elongations(part: &mut [u8], elongations: &[u64]) -> usize
    requires { segment_line_bytes * length elongations.now ≤ length part.old }
    ensures { Holds (elongations_text 0 elongations.now) result part.new part.old }
{
    let mut at = 0;
    for (passed, elongation) in elongations.iter().enumerate() {
        at += columns::put_line(&mut part[at..], &[passed as u64 + 1, *elongation]);
    }
    at
}

// What is printed of the sheet of fields that a reader has filled. `put_run` is like it in shape alone: another answer, in other lines.
pub(crate) fn put_sheet(part: &mut [u8], fields: &Fields) -> usize
    requires { RoomForText part.old }
    ensures { Holds (sheet_text_of fields.now) result part.new part.old }
{
    let mut sheet = [0u64; MOST_SEGMENTS];
    match sheet::of_fields(fields, &mut sheet) {
        Err(refusal) => answers::put_refusal(part, refusal),
        Ok(total) => {
            let at = put_elongations(part, &sheet[..fields.counts.segments]);
            at + columns::put_line(&mut part[at..], &[total.sum, total.measurable])
        }
    }
}
