// Row "duct", check by check: 14 stands between the places of 4, and 15 behind them.
ghost use Rattle.std.specs.Prelude.{◌≡◌, true, [], ◌∷◌};
ghost use Rattle.checks.specs.Rows.{checked_by, kind_row, second_path_row, friction_row, path_lengths_row};

use fields::limits::{MOST_APART, MOST_FRICTION};
use fields::refusal::Refusal;

// The places of the two checks that give 4.
const KIND: u64 = 1;

const FRICTION: u64 = 2;

#[tactic(auto, using(crate::proofs::Cascade::one_row))]
pub fn check_kind(pretensioned: bool, segments: usize) -> Result<(), Refusal>
    ensures { result ≡ checked_by (kind_row pretensioned segments ∷ []) tt }
{
    if pretensioned && segments != 0 {
        return Err(Refusal::Duct(KIND));
    }
    Ok(())
}

#[tactic(auto, using(crate::proofs::Cascade::one_row))]
pub fn check_second_path(pretensioned: bool, second_segments: usize) -> Result<(), Refusal>
    ensures { result ≡ checked_by (second_path_row pretensioned second_segments ∷ []) tt }
{
    if pretensioned && second_segments != 0 {
        return Err(Refusal::SecondPath);
    }
    Ok(())
}

// X of a path.
#[tactic(auto, using(crate::proofs::Cascade::one_row))]
pub fn check_friction(friction: u64) -> Result<(), Refusal>
    ensures { result ≡ checked_by (friction_row friction ∷ []) tt }
{
    if MOST_FRICTION < friction {
        return Err(Refusal::Duct(FRICTION));
    }
    Ok(())
}

// The lengths of two paths together, beside the tendon's.
#[tactic(auto, using(crate::proofs::Cascade::one_row))]
pub fn check_path_lengths(lengths: u64, tendon_length: u64) -> Result<(), Refusal>
    ensures { result ≡ checked_by (path_lengths_row true lengths tendon_length ∷ []) tt }
{
    if MOST_APART < lengths.abs_diff(tendon_length) {
        return Err(Refusal::PathLengths);
    }
    Ok(())
}
