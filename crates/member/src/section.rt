// κ, U and S of a section.
ghost use Rattle.std.specs.Prelude.{◌≡◌};
ghost use Rattle.member.specs.Constants.{kappa, whole_creep, whole_shrinkage};
ghost use Rattle.member.specs.Facts.{SectionFits, most_creep, AtMost};

use coefficient::codes::{Concrete, Cure};
use formulas::KAPPA_UNIT;
use ticks::TICKS_PER_UNIT;

// 4,096: what is left of κ's unit beside the ticks of e².
const KAPPA_OF_SQUARES: u64 = KAPPA_UNIT / (TICKS_PER_UNIT * TICKS_PER_UNIT);

// "U = UCR·SCF·MCF/439,453,125"
const CREEP_DIVISOR: u64 = 439_453_125;

// "S = USH·SSF/10^8"
const SHRINKAGE_DIVISOR: u64 = 100_000_000;

pub(crate) fn kappa_of(steel_area: u64, area: u64, eccentricity: u64, inertia: u64) -> u64
    requires { SectionFits steel_area area eccentricity inertia }
    ensures { result ≡ kappa steel_area area eccentricity inertia }
{
    let axial = steel_area * KAPPA_UNIT / area;
    let bending = KAPPA_OF_SQUARES * steel_area * (eccentricity * eccentricity) / inertia;
    axial + bending
}

#[tactic(auto, using(crate::proofs::Bounds::creep_bounds))]
pub fn whole_creep(
    cure: Cure,
    concrete: Concrete,
    ec: u32,
    volume_to_surface: u32,
    transfer: u32,
) -> u64
    ensures { AtMost most_creep (whole_creep cure concrete ec volume_to_surface transfer) result }
{
    let ucr = coefficient::ucr_of(cure, concrete, ec);
    let scf = coefficient::scf_of(volume_to_surface);
    let mcf = coefficient::mcf_of(cure, transfer);
    ucr * scf * mcf / CREEP_DIVISOR
}

#[tactic(auto, using(crate::proofs::Bounds::shrinkage_product))]
pub fn whole_shrinkage(concrete: Concrete, ec: u32, volume_to_surface: u32) -> u64
    ensures { result ≡ whole_shrinkage concrete ec volume_to_surface }
{
    let ush = coefficient::ush_of(concrete, ec);
    let ssf = coefficient::ssf_of(volume_to_surface);
    ush * ssf / SHRINKAGE_DIVISOR
}
