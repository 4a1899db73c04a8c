// Row "ranges", line by line of the card. A place is the number of a field.
ghost use Rattle.std.specs.Prelude.{◌≡◌, ◌+◌, leb};
ghost use Rattle.fields.specs.Along.{segments_of, ages_of};
ghost use Rattle.fields.specs.Limits.{most_moment};
ghost use Rattle.checks.specs.Rows.{checked, jacking_fits, deflector_fits, head_ranges, length_fits, rise_fits, ranges_of_segments};
ghost use Rattle.checks.specs.Rows.{ranges_of_moments, ranges};
ghost use Rattle.checks.specs.Places.{ranges_of_line1, ranges_of_line2, ranges_of_line3, ranges_of_line4};

use crate::row;
use fields::parts::Parts;
use fields::read::Fields;
use fields::segments::{Age, Segment};
use fields::{limits, places};

fn jacking_fits(fields: &Fields) -> bool
    ensures { result ≡ jacking_fits fields.now }
{
    let stress = fields.numbers[places::JACKING_STRESS];
    let most = limits::MOST_OF_STRENGTH * fields.numbers[places::ULTIMATE_STRENGTH];
    limits::LEAST_JACKING_STRESS <= stress && limits::HUNDREDTHS * stress <= most
}

fn deflector_fits(fields: &Fields) -> bool
    ensures { result ≡ deflector_fits fields.now }
{
    let loss = fields.numbers[places::DEFLECTOR_LOSS];
    loss <= limits::MOST_DEFLECTOR_LOSS && (fields.is_pretensioned() || loss == 0)
}

#[tactic(auto, using(crate::proofs::Rows::first), unfolding(crate::specs::Places::ranges_of_line1))]
fn line_1(fields: &Fields) -> Result<(), u64>
    ensures { result ≡ checked (ranges_of_line1 fields.now) }
{
    row::ranged(
        fields.numbers,
        places::ULTIMATE_STRENGTH,
        limits::LEAST_ULTIMATE_STRENGTH,
        limits::MOST_ULTIMATE_STRENGTH,
    )?;
    row::field(jacking_fits(fields), places::JACKING_STRESS)?;
    row::field(deflector_fits(fields), places::DEFLECTOR_LOSS)?;
    row::ranged(fields.numbers, places::SLIP, 0, limits::MOST_SLIP)?;
    row::ranged(
        fields.numbers,
        places::TENDON_LENGTH,
        limits::LEAST_TENDON_LENGTH,
        limits::MOST_LENGTH,
    )
}

// The fields of lines 2, 3 and 4, each with the least and the most that it may read.
const LINE_2: [(usize, u64, u64); 4] = [
    (places::ES, limits::LEAST_ES, limits::MOST_ES),
    (places::ECI, limits::LEAST_EC, limits::MOST_EC),
    (places::EC, limits::LEAST_EC, limits::MOST_EC),
    (
        places::VOLUME_TO_SURFACE,
        limits::LEAST_VOLUME_TO_SURFACE,
        limits::MOST_VOLUME_TO_SURFACE,
    ),
];

const LINE_3: [(usize, u64, u64); 5] = [
    (places::AREA, limits::LEAST_AREA, limits::MOST_AREA),
    (places::INERTIA, limits::LEAST_INERTIA, limits::MOST_INERTIA),
    (places::ECCENTRICITY, 0, limits::MOST_ECCENTRICITY),
    (
        places::STEEL_AREA,
        limits::LEAST_STEEL_AREA,
        limits::MOST_STEEL_AREA,
    ),
    (places::OWN_WEIGHT_MOMENT, 0, limits::MOST_MOMENT),
];

const LINE_4: [(usize, u64, u64); 2] = [
    (places::WOBBLE, 0, limits::MOST_WOBBLE),
    (places::CURVATURE, 0, limits::MOST_CURVATURE),
];

#[tactic(auto, unfolding(crate::specs::Places::ranges_of_line2, crate::specs::Ranged::ranges_held))]
fn line_2(fields: &Fields) -> Result<(), u64>
    ensures { result ≡ checked (ranges_of_line2 fields.now) }
{
    row::all_ranged(fields.numbers, &LINE_2)
}

#[tactic(auto, unfolding(crate::specs::Places::ranges_of_line3, crate::specs::Ranged::ranges_held))]
fn line_3(fields: &Fields) -> Result<(), u64>
    ensures { result ≡ checked (ranges_of_line3 fields.now) }
{
    row::all_ranged(fields.numbers, &LINE_3)
}

#[tactic(auto, unfolding(crate::specs::Places::ranges_of_line4, crate::specs::Ranged::ranges_held))]
fn line_4(fields: &Fields) -> Result<(), u64>
    ensures { result ≡ checked (ranges_of_line4 fields.now) }
{
    row::all_ranged(fields.numbers, &LINE_4)
}

#[tactic(auto, using(crate::proofs::Parts::head_in_lines))]
fn head_ranges(fields: &Fields) -> Result<(), u64>
    ensures { result ≡ checked (head_ranges fields.now) }
{
    line_1(fields)?;
    line_2(fields)?;
    line_3(fields)?;
    line_4(fields)
}

// A code is a number still, here and below: one that is not listed is row "codes" to refuse.
fn length_fits(segment: Segment) -> bool
    ensures { result ≡ length_fits segment }
{
    let length = segment.length;
    match segment.kind {
        places::STRAIGHT => (limits::LEAST_STRAIGHT..=limits::MOST_LENGTH).contains(&length),
        places::PARABOLA => (limits::LEAST_PARABOLA..=limits::MOST_LENGTH).contains(&length),
        _ => length == 0,
    }
}

fn rise_fits(segment: Segment) -> bool
    ensures { result ≡ rise_fits segment }
{
    match segment.kind {
        places::STRAIGHT => segment.rise == 0,
        places::PARABOLA => segment.rise <= limits::MOST_RISE,
        _ => segment.rise <= limits::MOST_ANGLE,
    }
}

// The ranges of some segments.
#[tactic(auto, using(crate::proofs::Rows::first), unfolding(crate::specs::Rows::ranges_of_segments, crate::specs::Rows::checked))]
pub fn of_segments(segments: Parts<Segment>) -> Result<(), u64>
    ensures { result ≡ checked (ranges_of_segments segments.entry.place (segments_of segments.entry.fields.now)) }
{
    for (place, segment) in segments {
        row::check(length_fits(segment), place + 1)?;
        row::check(rise_fits(segment), place + 2)?;
    }
    Ok(())
}

// All moments together stay within their limit.
fn moment_fits(before: u64, moment: u64) -> bool
    ensures { result ≡ leb (before + moment) most_moment }
{
    before
        .checked_add(moment)
        .is_some_and(|moments| moments <= limits::MOST_MOMENT)
}

// The moments of the ages, added to those `before` them.
#[tactic(auto, using(crate::proofs::Rows::one_by_one), unfolding(crate::specs::Rows::ranges_of_moments, crate::specs::Rows::checked))]
pub fn of_moments(ages: Parts<Age>, before: u64) -> Result<(), u64>
    ensures { result ≡ checked (ranges_of_moments ages.entry.place before (ages_of ages.entry.fields.now)) }
{
    let mut moments = before;
    for (place, Age { moment, .. }) in ages {
        row::check(moment_fits(moments, moment), place + 1)?;
        moments += moment;
    }
    Ok(())
}

#[tactic(auto, using(crate::proofs::Parts::ranges_in_parts))]
pub fn check(fields: &Fields) -> Result<(), u64>
    ensures { result ≡ checked (ranges fields.now) }
{
    head_ranges(fields)?;
    of_segments(fields.both_paths())?;
    of_moments(fields.ages(), fields.numbers[places::OWN_WEIGHT_MOMENT])
}
