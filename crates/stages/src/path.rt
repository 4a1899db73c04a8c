// Friction along a path and slip at its anchor: a stage of their own, from the jacking stress. Of two paths the one that is left the larger
// stress goes on.
ghost use Rattle.std.specs.Prelude.{◌≡◌};
ghost use Rattle.stages.specs.Run.{jacked as jackedTo, friction_along, slip_along, seated_alone, seated_along, larger, looked_at};
ghost use Rattle.stages.specs.Run.{seated_both, seated};
ghost use Rattle.stages.specs.Conditions.{PathBounded, FrictionTaken};

use crate::bounded::BoundedMember;
use crate::stress;
use fields::refusal::Refusal;
use formulas::anchor;
use member::path::Path;
use ticks::TICKS_PER_UNIT;

// Friction, slip and the stress after both, in ticks.
#[derive(Clone, Copy)]
pub struct Seated {
    pub friction: u64,
    pub slip: u64,
    pub stress: u64,
}

fn jacked(m: BoundedMember) -> u64
    ensures { result ≡ jackedTo m.member }
{
    let member = m.member;
    member.jacking_stress * TICKS_PER_UNIT
}

fn friction_along(m: BoundedMember, path: Path) -> u64
    requires { PathBounded path }
    ensures { result ≡ friction_along m.member path }
{
    formulas::friction_loss(jacked(m), path.friction)
}

// What slip takes at the section, friction having taken this much; or the refusal of a slip that reaches beyond the tendon's length.
fn slip_along(m: BoundedMember, path: Path, friction: u64) -> Result<u64, Refusal>
    requires { FrictionTaken m.member path friction }
    ensures { result ≡ slip_along m.member path }
{
    let member = m.member;
    if !anchor::dies_out(friction, path.length) {
        return Ok(formulas::slip_loss(member.es, member.slip, member.length));
    }
    let drop = anchor::drop_at_jack(friction, member.es, member.slip, path.length);
    if anchor::passes_tendon(drop, friction, path.length, member.length) {
        return Err(Refusal::AnchorSet);
    }
    Ok(anchor::drop_at_section(drop, friction))
}

// Along the only path the stress is looked at after each of the two losses, and how far the slip reaches between the two.
fn seat_alone(m: BoundedMember, path: Path) -> Result<Seated, Refusal>
    requires { PathBounded path }
    ensures { result ≡ seated_alone m.member path }
{
    let friction = friction_along(m, path);
    let rubbed = stress::after(stress::BEFORE_AGES, jacked(m), friction)?;
    let slip = slip_along(m, path, friction)?;
    let stress = stress::after(stress::BEFORE_AGES, rubbed, slip)?;
    Ok(Seated {
        friction,
        slip,
        stress,
    })
}

// Along one of two paths the stress is not looked at yet.
fn seat_along(m: BoundedMember, path: Path) -> Result<Seated, Refusal>
    requires { PathBounded path }
    ensures { result ≡ seated_along m.member path }
{
    let friction = friction_along(m, path);
    let slip = slip_along(m, path, friction)?;
    let rubbed = jacked(m).saturating_sub(friction);
    Ok(Seated {
        friction,
        slip,
        stress: rubbed.saturating_sub(slip),
    })
}

// The first at a tie.
fn larger(first: Seated, second: Seated) -> Seated
    ensures { result ≡ larger first second }
{
    if second.stress <= first.stress {
        first
    } else {
        second
    }
}

// The stress that goes on is looked at after each of the two losses.
fn look_at(m: BoundedMember, given: Seated) -> Result<Seated, Refusal>
    ensures { result ≡ looked_at m.member given }
{
    let rubbed = stress::after(stress::BEFORE_AGES, jacked(m), given.friction)?;
    stress::after(stress::BEFORE_AGES, rubbed, given.slip)?;
    Ok(given)
}

fn seat_both(m: BoundedMember, first: Path, second: Path) -> Result<Seated, Refusal>
    requires first { PathBounded first }
    requires second { PathBounded second }
    ensures { result ≡ seated_both m.member first second }
{
    let one = seat_along(m, first)?;
    let other = seat_along(m, second)?;
    look_at(m, larger(one, other))
}

#[tactic(auto, unfolding(crate::specs::Run::seated_by))]
pub fn seat(m: BoundedMember) -> Result<Seated, Refusal>
    ensures { result ≡ seated m.member }
{
    let member = m.member;
    let paths = member.paths;
    match paths.second {
        None => seat_alone(m, paths.first),
        Some(second) => seat_both(m, paths.first, second),
    }
}
