// The coefficients of creep and shrinkage, and the clocks by which they are read.
#![tactic(auto)]

ghost use Rattle.std.specs.Prelude.{◌≡◌, ◌-◌, max};
ghost use Rattle.logarithm.specs.Logarithm.{logarithm};
ghost use Rattle.coefficient.specs.Coefficients.{scf, ssf, mcf, creep_share, shrinkage_share, ucr, ush};

pub mod clocks;
pub mod codes;

use clocks::{HoursSinceCuring, HoursSinceTensioning, HoursSinceTransfer};
use codes::{Concrete, Cure};
use tables::{factors, shares};

// The creep factor of volume/surface, in 102,400ths.
#[tactic(auto, unfolding(crate::specs::Coefficients::scf))]
pub fn scf_of(volume_to_surface: u32) -> u64
    ensures { result ≡ scf volume_to_surface }
{
    factors::scf(volume_to_surface)
}

// The shrinkage factor of volume/surface, in 102,400ths.
#[tactic(auto, unfolding(crate::specs::Coefficients::ssf))]
pub fn ssf_of(volume_to_surface: u32) -> u64
    ensures { result ≡ ssf volume_to_surface }
{
    factors::ssf(volume_to_surface)
}

// The creep factor of the age at transfer, in 72,000ths.
#[tactic(auto, unfolding(crate::specs::Coefficients::mcf))]
pub fn mcf_of(cure: Cure, transfer: u32) -> u64
    ensures { result ≡ mcf cure transfer }
{
    match cure {
        Cure::Moist => factors::mcf(transfer),
        Cure::Accelerated => factors::MCF_UNIT,
    }
}

// The share of creep that is done, in 1/T. The clock reads `life` at the end of the service life.
#[tactic(auto, unfolding(crate::specs::Coefficients::creep_share))]
pub fn creep_share(life: HoursSinceTransfer, clock: HoursSinceTransfer) -> u64
    ensures { result ≡ creep_share life clock }
{
    shares::creep(life.0, clock.0)
}

// The share of shrinkage that is done, in 1/T.
#[tactic(auto, unfolding(crate::specs::Coefficients::shrinkage_share))]
pub fn shrinkage_share(life: HoursSinceCuring, clock: HoursSinceCuring) -> u64
    ensures { result ≡ shrinkage_share life clock }
{
    shares::shrinkage(life.0, clock.0)
}

// The logarithm of relaxation's clock.
pub fn relaxation_logarithm(clock: HoursSinceTensioning) -> u64
    ensures { result ≡ logarithm clock.0 }
{
    logarithm::reading(clock.0)
}

// UCR and USH: where they begin, what a psi of Ec takes from them, and the least they can be.
const UCR_MOIST_NORMAL: u64 = 95_000_000;

const UCR_MOIST_LIGHTWEIGHT: u64 = 76_000_000;

const UCR_ACCELERATED: u64 = 63_000_000;

const UCR_A_PSI: u64 = 20;

const UCR_LEAST: u64 = 11_000_000;

const USH_NORMAL: u64 = 27_000_000_000;

const USH_NORMAL_A_PSI: u64 = 3_000;

const USH_LIGHTWEIGHT: u64 = 41_000_000_000;

const USH_LIGHTWEIGHT_A_PSI: u64 = 10_000;

const USH_LEAST: u64 = 12_000_000_000;

// The whole creep of 1 psi of concrete stress, in millionths of psi.
#[tactic(auto, unfolding(crate::specs::Coefficients::ucr))]
pub fn ucr_of(cure: Cure, concrete: Concrete, ec: u32) -> u64
    ensures { result ≡ ucr cure concrete ec }
{
    let base = match (cure, concrete) {
        (Cure::Moist, Concrete::Normal) => UCR_MOIST_NORMAL,
        (Cure::Moist, Concrete::Lightweight) => UCR_MOIST_LIGHTWEIGHT,
        (Cure::Accelerated, _) => UCR_ACCELERATED,
    };
    base.saturating_sub(UCR_A_PSI * u64::from(ec))
        .max(UCR_LEAST)
}

// The whole shrinkage, in millionths of psi.
#[tactic(auto, unfolding(crate::specs::Coefficients::ush))]
pub fn ush_of(concrete: Concrete, ec: u32) -> u64
    ensures { result ≡ ush concrete ec }
{
    let (base, a_psi) = match concrete {
        Concrete::Normal => (USH_NORMAL, USH_NORMAL_A_PSI),
        Concrete::Lightweight => (USH_LIGHTWEIGHT, USH_LIGHTWEIGHT_A_PSI),
    };
    base.saturating_sub(a_psi * u64::from(ec)).max(USH_LEAST)
}
