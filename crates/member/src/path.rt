// The paths of a tendon: X, the friction of each, and its length.
ghost use Rattle.std.specs.Prelude.{◌≡◌};
ghost use Rattle.fields.specs.Along.{segments_of};
ghost use Rattle.fields.specs.Limits.{range};
ghost use Rattle.member.specs.Constants.{wobble_part, curvature_part, segment_friction, path_friction, path_length};
ghost use Rattle.member.specs.Facts.{PartFits, SegmentFrictionFits, PathFrictionFits, most_part, most_segment_friction, AtMost};

use fields::parts::Parts;
use fields::places;
use fields::segments::Segment;
use ticks::{T, TICKS_PER_UNIT};

#[derive(Clone, Copy)]
pub struct Path {
    pub friction: u64,
    pub length: u64,
}

// The path from the first jack, and the one from the far end, if the tendon is pulled there too.
#[derive(Clone, Copy)]
pub struct Paths {
    pub first: Path,
    pub second: Option<Path>,
}

const MILLION: u64 = 1_000_000;

fn wobble_part(wobble: u64, segment: Segment) -> u64
    requires { PartFits range.wobble.high wobble segment }
    ensures { AtMost most_part (wobble_part wobble segment) result }
{
    wobble * segment.length * T / (TICKS_PER_UNIT * MILLION)
}

// A code is a number still: the segment is as its fields stand.
fn curvature_part(curvature: u64, segment: Segment) -> u64
    requires { PartFits range.curvature.high curvature segment }
    ensures { AtMost most_part (curvature_part curvature segment) result }
{
    match segment.kind {
        places::BEND => curvature * segment.rise * T / (TICKS_PER_UNIT * MILLION),
        places::PARABOLA => curvature * (2 * segment.rise) * T / (segment.length * MILLION),
        _ => 0,
    }
}

// What a segment adds to X: its two parts.
pub fn segment_friction(wobble: u64, curvature: u64, segment: Segment) -> u64
    requires { SegmentFrictionFits wobble curvature segment }
    ensures { AtMost most_segment_friction (segment_friction wobble curvature segment) result }
{
    wobble_part(wobble, segment) + curvature_part(curvature, segment)
}

// A path by its segments.
#[tactic(auto, using(crate::proofs::Along::along), unfolding(crate::specs::Constants::path_friction, crate::specs::Constants::path_length))]
pub(crate) fn path_of(path: Parts<Segment>, wobble: u64, curvature: u64) -> Path
    requires { PathFrictionFits wobble curvature (segments_of path.fields.now) }
    ensures friction { result.friction ≡ path_friction wobble curvature (segments_of path.entry.fields.now) }
    ensures length { result.length ≡ path_length (segments_of path.entry.fields.now) }
{
    let mut friction = 0u64;
    let mut length = 0u64;
    for (_, segment) in path {
        friction += segment_friction(wobble, curvature, segment);
        length += segment.length;
    }
    Path { friction, length }
}
