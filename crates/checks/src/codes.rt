// Row "codes". A place is the number of a field.
ghost use Rattle.std.specs.Prelude.{◌≡◌};
ghost use Rattle.fields.specs.Quantities.{straight, bend};
ghost use Rattle.fields.specs.Along.{segments_of};
ghost use Rattle.fields.specs.Limits.{within};
ghost use Rattle.checks.specs.Rows.{checked, head_codes, segment_codes, codes};

use crate::row;
use fields::limits::{FIRST_CODE, LAST_CODE};
use fields::parts::Parts;
use fields::places;
use fields::read::Fields;
use fields::segments::Segment;

// The codes of lines 1 and 2, with the first and the last that are listed. A code is a number still: this row says which are codes.
const HEAD_CODES: [(usize, u64, u64); 4] = [
    (places::KIND, FIRST_CODE, LAST_CODE),
    (places::STEEL, FIRST_CODE, LAST_CODE),
    (places::CURE, FIRST_CODE, LAST_CODE),
    (places::CONCRETE, FIRST_CODE, LAST_CODE),
];

#[tactic(auto, unfolding(crate::specs::Ranged::ranges_held))]
fn of_head(fields: &Fields) -> Result<(), u64>
    ensures { result ≡ checked (head_codes fields.now) }
{
    row::all_ranged(fields.numbers, &HEAD_CODES)
}

fn is_listed(segment: Segment) -> bool
    ensures { result ≡ within straight bend segment.kind }
{
    (places::STRAIGHT..=places::BEND).contains(&segment.kind)
}

// The codes of some segments.
#[tactic(auto, using(crate::proofs::Rows::first), unfolding(crate::specs::Rows::segment_codes, crate::specs::Rows::checked))]
pub fn of_segments(segments: Parts<Segment>) -> Result<(), u64>
    ensures { result ≡ checked (segment_codes segments.entry.place (segments_of segments.entry.fields.now)) }
{
    for (place, segment) in segments {
        row::check(is_listed(segment), place)?;
    }
    Ok(())
}

#[tactic(auto, using(crate::proofs::Parts::codes_in_parts))]
pub fn check(fields: &Fields) -> Result<(), u64>
    ensures { result ≡ checked (codes fields.now) }
{
    of_head(fields)?;
    of_segments(fields.both_paths())
}
