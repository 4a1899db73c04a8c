// The losses of an interval and the gain at its end, from its two ends, and the row of the age at which it ends.
ghost use Rattle.std.specs.Prelude.{◌≡◌, ◌<◌};
ghost use Rattle.formulas.specs.Conditions.{stress_limit};
ghost use Rattle.stages.specs.Run.{losses_between, gain_between, row_between};
ghost use Rattle.stages.specs.Conditions.{EndBounded};

use crate::bounded::BoundedMember;
use crate::ends::End;
use crate::stress;
use fields::refusal::Refusal;

// From one end to the next. What stands at the later end is so bounded that no product of the interval's losses wraps.
#[derive(Clone, Copy)]
pub struct Interval {
    pub start: End,
    pub end: End,
    pub ghost bounded: { EndBounded end },
}

#[derive(Clone, Copy)]
pub struct Losses {
    pub creep: u64,
    pub shrinkage: u64,
    pub relaxation: u64,
}

// The losses of an age; the stress after them and after the gain; and the gain.
#[derive(Clone, Copy)]
pub struct Row {
    pub creep: u64,
    pub shrinkage: u64,
    pub relaxation: u64,
    pub stress: u64,
    pub gain: u64,
}

// The losses of an interval, from the stress at its start.
fn losses_between(m: BoundedMember, stress: u64, interval: Interval) -> Losses
    requires { stress < stress_limit }
    ensures { result ≡ losses_between m.member stress interval.start interval.end }
{
    let member = m.member;
    let start = interval.start;
    let end = interval.end;
    let c = formulas::concrete_stress(stress, member.kappa, start.g);
    let creep_share = end.creep.saturating_sub(start.creep);
    let shrinkage_share = end.shrinkage.saturating_sub(start.shrinkage);
    let logarithms = end.logarithm.saturating_sub(start.logarithm);
    let creep = formulas::creep_loss(member.creep, creep_share, c);
    let shrinkage = formulas::shrinkage_loss(member.shrinkage, shrinkage_share);
    let relaxation = formulas::relaxation_loss(
        member.steel,
        member.ultimate_strength,
        stress,
        logarithms,
    );
    Losses {
        creep,
        shrinkage,
        relaxation,
    }
}

// The gain from the moment that is added at an interval's end.
fn gain_between(m: BoundedMember, interval: Interval) -> u64
    ensures { result ≡ gain_between m.member interval.start interval.end }
{
    let member = m.member;
    let start = interval.start;
    let end = interval.end;
    let rise = end.g.saturating_sub(start.g);
    formulas::moment_gain(member.es, member.ec, rise)
}

// All three losses leave the stress together, and the gain follows. The interval ends at the age of this number.
pub fn pass(m: BoundedMember, number: u64, stress: u64, interval: Interval) -> Result<Row, Refusal>
    requires { stress < stress_limit }
    ensures { result ≡ row_between m.member number stress interval.start interval.end }
{
    let losses = losses_between(m, stress, interval);
    let together = losses.creep + losses.shrinkage + losses.relaxation;
    let gain = gain_between(m, interval);
    let left = stress::after(number, stress, together)?;
    let member = m.member;
    let risen = stress::lifted(number, member.ultimate_strength, left, gain)?;
    Ok(Row {
        creep: losses.creep,
        shrinkage: losses.shrinkage,
        relaxation: losses.relaxation,
        stress: risen,
        gain,
    })
}
