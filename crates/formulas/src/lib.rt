// The losses of each step and the gain, in ticks. Every division rounds down. What a function requires is that its products fit.
#![tactic(auto)]

ghost use Rattle.std.specs.Prelude.{◌≡◌, ◌<◌};
ghost use Rattle.formulas.specs.Steps.{stress_left, friction_loss, slip_loss, deflector_ticks, yield, relaxation_divisor, relaxation_factor};
ghost use Rattle.formulas.specs.Steps.{relaxation_loss, moment_stress, concrete_stress, shortening_loss, creep_loss, shrinkage_loss};
ghost use Rattle.formulas.specs.Steps.{moment_gain};
ghost use Rattle.formulas.specs.Conditions.{strength_limit, FrictionFits, SlipFits, DeflectorFits, RelaxationFits, FactorFits};
ghost use Rattle.formulas.specs.Conditions.{MomentsFit, ConcreteFits, ShorteningFits, CreepFits, ShrinkageFits};
ghost use Rattle.formulas.specs.Conditions.{GainFits};

pub mod anchor;

use coefficient::codes::Steel;
use fields::limits::HUNDREDTHS;
use ticks::{T, TICKS_PER_UNIT};

// 2^32: what κ is in parts of.
pub const KAPPA_UNIT: u64 = 4_294_967_296;

pub const INCHES_TO_A_FOOT: u64 = 12;

// Y: 0.85 F and 0.90 F.
const STRESS_RELIEVED_YIELD: u64 = 85;

const LOW_RELAXATION_YIELD: u64 = 90;

// D
const STRESS_RELIEVED_DIVISOR: u64 = 2_560;

const LOW_RELAXATION_DIVISOR: u64 = 11_520;

// 0.55 T and 0.05 T, rounded.
const FREE_OF_RELAXATION: u64 = 55 * T / HUNDREDTHS;

const LEAST_FACTOR: u64 = 5 * T / HUNDREDTHS;

#[tactic(auto, using(exponential::proofs::Turns::factor_most))]
pub fn stress_left(stress: u64, friction: u64) -> u64
    requires { FrictionFits stress friction }
    ensures { result ≡ stress_left stress friction }
{
    stress * exponential::factor(friction) / T
}

#[tactic(auto, using(crate::proofs::Laws::stress_left_most))]
pub fn friction_loss(stress: u64, friction: u64) -> u64
    requires { FrictionFits stress friction }
    ensures { result ≡ friction_loss stress friction }
{
    stress - stress_left(stress, friction)
}

pub fn slip_loss(es: u64, slip: u64, length: u64) -> u64
    requires { SlipFits es slip length }
    ensures { result ≡ slip_loss es slip length }
{
    es * slip * TICKS_PER_UNIT / (INCHES_TO_A_FOOT * length)
}

pub fn deflector_ticks(deflector_loss: u64) -> u64
    requires { DeflectorFits deflector_loss }
    ensures { result ≡ deflector_ticks deflector_loss }
{
    deflector_loss * TICKS_PER_UNIT
}

fn yield_of(steel: Steel, ultimate_strength: u64) -> u64
    requires { ultimate_strength < strength_limit }
    ensures { result ≡ yield steel ultimate_strength }
{
    let hundredths = match steel {
        Steel::StressRelieved => STRESS_RELIEVED_YIELD,
        Steel::LowRelaxation => LOW_RELAXATION_YIELD,
    };
    hundredths * ultimate_strength * TICKS_PER_UNIT / HUNDREDTHS
}

fn relaxation_divisor(steel: Steel) -> u64
    ensures { result ≡ relaxation_divisor steel }
{
    match steel {
        Steel::StressRelieved => STRESS_RELIEVED_DIVISOR,
        Steel::LowRelaxation => LOW_RELAXATION_DIVISOR,
    }
}

fn relaxation_factor(stress: u64, y: u64) -> u64
    requires { FactorFits stress y }
    ensures { result ≡ relaxation_factor stress y }
{
    (stress * T / y)
        .saturating_sub(FREE_OF_RELAXATION)
        .max(LEAST_FACTOR)
}

pub fn relaxation_loss(steel: Steel, ultimate_strength: u64, stress: u64, logarithms: u64) -> u64
    requires { RelaxationFits ultimate_strength stress logarithms }
    ensures { result ≡ relaxation_loss steel ultimate_strength stress logarithms }
{
    let y = yield_of(steel, ultimate_strength);
    let divisor = relaxation_divisor(steel);
    stress * logarithms / divisor * relaxation_factor(stress, y) / T
}

pub fn moment_stress(moments: u64, eccentricity: u64, inertia: u64) -> u64
    requires { MomentsFit moments eccentricity inertia }
    ensures { result ≡ moment_stress moments eccentricity inertia }
{
    moments * eccentricity / inertia
}

pub fn concrete_stress(stress: u64, kappa: u64, g: u64) -> u64
    requires { ConcreteFits stress kappa }
    ensures { result ≡ concrete_stress stress kappa g }
{
    (stress * kappa / KAPPA_UNIT).saturating_sub(g)
}

pub fn shortening_loss(es: u64, eci: u64, kappa: u64, c: u64) -> u64
    requires { ShorteningFits es eci kappa c }
    ensures { result ≡ shortening_loss es eci kappa c }
{
    es * c / (eci + es * kappa / KAPPA_UNIT)
}

pub fn creep_loss(whole_creep: u64, share: u64, c: u64) -> u64
    requires { CreepFits whole_creep share c }
    ensures { result ≡ creep_loss whole_creep share c }
{
    whole_creep * share / T * c / T
}

pub fn shrinkage_loss(whole_shrinkage: u64, share: u64) -> u64
    requires { ShrinkageFits whole_shrinkage share }
    ensures { result ≡ shrinkage_loss whole_shrinkage share }
{
    whole_shrinkage * share / T
}

// Es·rise/Ec. The product may need more than 64 bits, so the whole Ec in the rise are taken out of it first; they divide exactly.
pub fn moment_gain(es: u64, ec: u64, rise: u64) -> u64
    requires { GainFits es ec rise }
    ensures { result ≡ moment_gain es ec rise }
{
    es * (rise / ec) + es * (rise % ec) / ec
}
