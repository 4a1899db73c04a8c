// The stress that a loss leaves, and the stress after a gain. A stress is a number whose bound contracts ask for. A type that keeps the
// bound would be no plainer: `BeforeAges` and `Row`, which the definitions make of any stress, could not hold it.
ghost use Rattle.std.specs.Prelude.{◌≡◌};
ghost use Rattle.stages.specs.Run.{after as afterLoss, lifted as liftedBy};
ghost use Rattle.stages.specs.Conditions.{LiftFits};

use fields::limits::{HUNDREDTHS, LEAST_STRESS, MOST_OF_STRENGTH};
use fields::refusal::Refusal;
use ticks::TICKS_PER_UNIT;

// The place of a stress that is gone before the ages; after them it is the age's number.
pub const BEFORE_AGES: u64 = 0;

// What a loss leaves of a stress, or its refusal.
pub fn after(place: u64, stress: u64, loss: u64) -> Result<u64, Refusal>
    ensures { result ≡ afterLoss place stress loss }
{
    stress
        .checked_sub(loss)
        .filter(|left| LEAST_STRESS <= *left)
        .ok_or(Refusal::Stress(place))
}

// What a gain makes of a stress, or its refusal: 0.80 F may be reached, not passed.
pub fn lifted(number: u64, ultimate_strength: u64, stress: u64, gain: u64) -> Result<u64, Refusal>
    requires { LiftFits ultimate_strength stress gain }
    ensures { result ≡ liftedBy number ultimate_strength stress gain }
{
    let risen = stress + gain;
    if HUNDREDTHS * risen <= MOST_OF_STRENGTH * ultimate_strength * TICKS_PER_UNIT {
        return Ok(risen);
    }
    Err(Refusal::Overstress(number))
}
