// The losses and the gains of the ages, interval by interval, and the row of each.
ghost use Rattle.std.specs.Prelude.{length};
ghost use Rattle.fields.specs.Along.{ages_of};
ghost use Rattle.stages.specs.Run.{transfer_end, aged_from};
ghost use Rattle.entries.specs.RunAges.{RanAges};
ghost use Rattle.entries.specs.Conditions.{AgesRunnable};

use crate::rows;
use fields::limits::PER_ROW;
use fields::parts::Parts;
use fields::refusal::Refusal;
use fields::segments::Age;
use stages::bounded::BoundedMember;
use stages::ends::End;
use stages::intervals::Interval;
use stages::{ends, intervals};

// The ages, in turn from the stress at transfer on, each with its row in the scratch: the last stress, or the refusal of the first age
// whose losses leave too little or whose gain lifts too high. An age's moment counts from its own end on.
#[tactic(auto, using(crate::proofs::Running::an_age))]
pub(crate) fn run_ages(
    m: BoundedMember,
    ages: Parts<Age>,
    transfer: End,
    mut stress: u64,
    scratch: &mut [u64],
) -> Result<u64, Refusal>
    requires { AgesRunnable m.member (ages_of ages.fields.now) transfer stress scratch.old }
    ensures { RanAges (aged_from m.member 0 stress (transfer_end m.member) (ages_of ages.entry.fields.now))
        (length (ages_of ages.entry.fields.now)) result scratch.new scratch.old }
{
    let mut start = transfer;
    for (passed, (_, age)) in ages.enumerate() {
        let moments = start.moments + age.moment;
        let end = ends::end_at(m, moments, age.hour as u32);
        let interval = Interval { start, end };
        let row = intervals::pass(m, passed as u64 + 1, stress, interval)?;
        rows::write_row(&mut scratch[PER_ROW * passed..], &rows::numbers(row));
        stress = row.stress;
        start = end;
    }
    Ok(stress)
}
