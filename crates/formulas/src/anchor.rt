// Slip that dies out along the path, of document 02, W5: the drop at the jack and at the section, and how far the slip reaches. Each takes
// the numbers of its formula by the document's names, d and P among them; a struct of these two would be none of its names.
ghost use Rattle.std.specs.Prelude.{◌≡◌, ◌+◌, ◌*◌, ◌<◌};
ghost use Rattle.ticks.specs.Ticks.{ticks_per_unit};
ghost use Rattle.formulas.specs.Steps.{dies_out, drop_at_jack, passes_tendon, drop_at_section};
ghost use Rattle.formulas.specs.Conditions.{stress_limit, DropFits, AffectedFits};
ghost use Rattle.formulas.specs.Roots.{Root, Further, FurtherFits};

use crate::INCHES_TO_A_FOOT;
use ticks::TICKS_PER_UNIT;

// Both sides of Z²·P <= 4·d·Es·slip over 4: this many inches are left of each foot of P.
const QUARTER_OF_A_FOOT: u64 = INCHES_TO_A_FOOT / 4;

// The root of 1,024.
const ROOT_OF_TICKS: u64 = 32;

// 2^32, above the root of every number of 64 bits.
const ROOT_LIMIT: u64 = 4_294_967_296;

pub fn dies_out(friction: u64, path_length: u64) -> bool
    ensures { result ≡ dies_out friction path_length }
{
    0 < friction && 0 < path_length
}

// How much larger than `root` the root of root² + rest is: the largest n with n·(2·root + n) <= rest. It is below `above`, and found by
// halving what lies between. A drop at the jack takes some 230 instructions so, 430 if the library's `isqrt` finds the first of its two
// roots, and 1,690 if one `isqrt` of 128 bits finds Z (callgrind).
fn further(root: u64, rest: u64, above: u64) -> u64
    requires { FurtherFits root rest above }
    ensures { Further root rest above result }
{
    let mut reached = 0;
    let mut left = above;
    while 1 < left {
        let middle = reached + left / 2;
        if middle * (2 * root + middle) <= rest {
            reached = middle;
        }
        left = (left + 1) / 2;
    }
    reached
}

// The root of 1024·whole + parts, which may be wider than 64 bits: 32 times the root of `whole`, and at most 31 more.
fn root_of_ticks(whole: u64, parts: u64) -> u64
    requires { parts < ticks_per_unit }
    ensures { Root (ticks_per_unit * whole + parts) result }
{
    let coarse = further(0, whole, ROOT_LIMIT);
    let root = ROOT_OF_TICKS * coarse;
    let rest = TICKS_PER_UNIT * (whole - coarse * coarse) + parts;
    root + further(root, rest, ROOT_OF_TICKS)
}

// Z. Its square is at most 1024·d·Es·slip/(3·path), which may need more than 64 bits; d·Es·slip fits them.
pub fn drop_at_jack(friction: u64, es: u64, slip: u64, path_length: u64) -> u64
    requires { DropFits friction es slip path_length }
    ensures { result ≡ drop_at_jack friction es slip path_length }
{
    let divisor = QUARTER_OF_A_FOOT * path_length;
    let product = friction * es * slip;
    root_of_ticks(
        product / divisor,
        TICKS_PER_UNIT * (product % divisor) / divisor,
    )
}

// Whether the slip reaches beyond the tendon's length. The other side is divided, so that Z by the path need not fit.
pub fn passes_tendon(drop: u64, friction: u64, path_length: u64, length: u64) -> bool
    requires { AffectedFits friction path_length length }
    ensures { result ≡ passes_tendon drop friction path_length length }
{
    2 * friction * length / path_length < drop
}

pub fn drop_at_section(drop: u64, friction: u64) -> u64
    requires { friction < stress_limit }
    ensures { result ≡ drop_at_section drop friction }
{
    drop.saturating_sub(2 * friction)
}
