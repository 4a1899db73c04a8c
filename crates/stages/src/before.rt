// The losses before the ages, and the stress that each leaves.
ghost use Rattle.std.specs.Prelude.{◌≡◌};
ghost use Rattle.stages.specs.Run.{early_relaxation_of, shortening_of, begun_of, transfer_end};
ghost use Rattle.stages.specs.Conditions.{RelaxesEarly, Shortens};

use crate::bounded::BoundedMember;
use crate::ends::End;
use crate::{path, stress};
use coefficient::codes::Kind;
use fields::refusal::Refusal;

// The five losses before the ages, and the stress after them, in ticks.
#[derive(Clone, Copy)]
pub struct BeforeAges {
    pub friction: u64,
    pub slip: u64,
    pub deflector: u64,
    pub early_relaxation: u64,
    pub shortening: u64,
    pub stress: u64,
}

// The relaxation of a pretensioned member from hour 1, whose logarithm is 0, to transfer, whose logarithm is handed on.
#[tactic(auto, using(logarithm::proofs::Laws::at_first_hour, crate::proofs::Clocks::logarithm_most))]
fn early_relaxation(m: BoundedMember, logarithm: u64, stress: u64) -> u64
    requires { RelaxesEarly m.member logarithm stress }
    ensures { result ≡ early_relaxation_of m.member stress }
{
    let member = m.member;
    let hours = member.hours;
    match hours.kind {
        Kind::Pretensioned => {
            formulas::relaxation_loss(member.steel, member.ultimate_strength, stress, logarithm)
        }
        Kind::PostTensioned => 0,
    }
}

// The shortening at transfer, where the own weight's stress is g.
fn shortening(m: BoundedMember, g: u64, stress: u64) -> u64
    requires { Shortens m.member g stress }
    ensures { result ≡ shortening_of m.member stress }
{
    let member = m.member;
    let c = formulas::concrete_stress(stress, member.kappa, g);
    formulas::shortening_loss(member.es, member.eci, member.kappa, c)
}

// The losses before the ages. The stress is looked at after each.
#[tactic(auto, unfolding(crate::specs::Run::begun_of))]
pub fn begin(m: BoundedMember, transfer: End) -> Result<BeforeAges, Refusal>
    requires { transfer ≡ transfer_end m.member }
    ensures { result ≡ begun_of m.member }
{
    let seated = path::seat(m)?;
    let member = m.member;
    let deflector = formulas::deflector_ticks(member.deflector_loss);
    let deflected = stress::after(stress::BEFORE_AGES, seated.stress, deflector)?;
    let early_relaxation = early_relaxation(m, transfer.logarithm, deflected);
    let relaxed = stress::after(stress::BEFORE_AGES, deflected, early_relaxation)?;
    let shortening = shortening(m, transfer.g, relaxed);
    let stress = stress::after(stress::BEFORE_AGES, relaxed, shortening)?;
    Ok(BeforeAges {
        friction: seated.friction,
        slip: seated.slip,
        deflector,
        early_relaxation,
        shortening,
        stress,
    })
}
