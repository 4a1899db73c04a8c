// The ends of the intervals, read once each: one interval's end is the next one's start.
ghost use Rattle.std.specs.Prelude.{◌≡◌, ◌≤◌};
ghost use Rattle.fields.specs.Limits.{most_moment};
ghost use Rattle.stages.specs.Run.{end_at};

use crate::bounded::BoundedMember;
use coefficient::clocks::SERVICE_LIFE;

// What stands at an end of an interval: the moments so far and g, their stress; the shares of creep and shrinkage; relaxation's
// logarithm.
#[derive(Clone, Copy)]
pub struct End {
    pub moments: u64,
    pub g: u64,
    pub creep: u64,
    pub shrinkage: u64,
    pub logarithm: u64,
}

pub fn end_at(m: BoundedMember, moments: u64, hour: u32) -> End
    requires { moments ≤ most_moment }
    ensures { result ≡ end_at m.member moments hour }
{
    let member = m.member;
    let hours = member.hours;
    End {
        moments,
        g: formulas::moment_stress(moments, member.eccentricity, member.inertia),
        creep: coefficient::creep_share(
            hours.since_transfer(SERVICE_LIFE),
            hours.since_transfer(hour),
        ),
        shrinkage: coefficient::shrinkage_share(
            hours.since_curing(SERVICE_LIFE),
            hours.since_curing(hour),
        ),
        logarithm: coefficient::relaxation_logarithm(hours.since_tensioning(hour)),
    }
}
