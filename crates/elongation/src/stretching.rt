// The elongation of each segment of a path, and their sum.
ghost use Rattle.std.specs.Prelude.{◌≡◌};
ghost use Rattle.member.specs.Facts.{AtMost};
ghost use Rattle.elongation.specs.Sheet.{elongation as elongationOf};
ghost use Rattle.elongation.specs.Conditions.{ElongationFits, most_elongation, Stretchable, Stretched};

use fields::places;
use fields::read::Fields;
use formulas::INCHES_TO_A_FOOT;
use member::path;
use ticks::TICKS_PER_UNIT;

// The mean of the stresses before and after a segment, times its length over Es, in ticks of inch.
fn elongation(es: u64, before: u64, after: u64, length: u64) -> u64
    requires { ElongationFits es before after length }
    ensures { AtMost most_elongation (elongationOf es before after length) result }
{
    (before + after) * (INCHES_TO_A_FOOT * length) / (2 * (es * TICKS_PER_UNIT))
}

// Writes the elongations of the path's segments to the front of `sheet`; their sum. Each segment begins with the stress that the one
// before it leaves.
#[tactic(auto, using(fields::proofs::Counting::few_segments, crate::proofs::Walk::none_stretched, crate::proofs::Walk::sum_small))]
pub(crate) fn stretch(fields: &Fields, sheet: &mut [u64]) -> u64
    requires { Stretchable fields.now sheet.old }
    ensures { Stretched fields.now result sheet.new sheet.old }
{
    let es = fields.numbers[places::ES];
    let wobble = fields.numbers[places::WOBBLE];
    let curvature = fields.numbers[places::CURVATURE];
    let jacked = fields.numbers[places::JACKING_STRESS] * TICKS_PER_UNIT;
    let mut friction = 0;
    let mut before = jacked;
    let mut sum = 0;
    // By number: of what is written through `sheet.iter_mut()` in a `zip` a proof knows nothing.
    for (number, (_, segment)) in fields.path().enumerate() {
        friction += path::segment_friction(wobble, curvature, segment);
        let after = formulas::stress_left(jacked, friction);
        let stretched = elongation(es, before, after, segment.length);
        sheet[number] = stretched;
        sum += stretched;
        before = after;
    }
    sum
}
