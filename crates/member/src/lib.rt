// From numbered fields to an accepted member, or its refusal: codes, ranges, hours, duct, buffers, section and creep.
#![tactic(auto)]

ghost use Rattle.std.specs.Prelude.{◌≡◌};
ghost use Rattle.checks.specs.Rows.{checked_by};
ghost use Rattle.member.specs.Member.{paths_of, member_of, codes_to_hours, duct_rows, codes_to_duct, buffers_to_creep, checked_of};

pub mod codes;
pub mod path;
pub mod ranged;
pub mod section;

use checks::buffers::Room;
use checks::duct;
use coefficient::clocks::MemberHours;
use coefficient::codes::Steel;
use fields::limits::{MOST_CREEP_OF_KAPPA, MOST_KAPPA};
use fields::places;
use fields::read::Fields;
use fields::refusal::Refusal;
use path::Paths;
use ranged::Ranged;

// What the run uses of an accepted member, by the papers' names. Its segments and its ages stay in the fields.
#[derive(Clone, Copy)]
pub struct Member {
    pub hours: MemberHours,
    pub steel: Steel,
    pub ultimate_strength: u64,
    pub jacking_stress: u64,
    pub deflector_loss: u64,
    pub slip: u64,
    pub length: u64,
    pub es: u64,
    pub eci: u64,
    pub ec: u64,
    pub inertia: u64,
    pub eccentricity: u64,
    pub own_weight_moment: u64,
    pub paths: Paths,
    pub kappa: u64,
    pub creep: u64,
    pub shrinkage: u64,
}

// "Refusal by place of checking, top to bottom", from row "codes" to row "hours".
#[tactic(auto, using(checks::proofs::Cascade::rows_made))]
pub fn check_to_hours(fields: &Fields) -> Result<(), Refusal>
    ensures { result ≡ checked_by (codes_to_hours fields.now) tt }
{
    checks::codes::check(fields).map_err(Refusal::Codes)?;
    checks::ranges::check(fields).map_err(Refusal::Ranges)?;
    checks::hours::check(fields).map_err(Refusal::Hours)
}

// Row "duct", where those above hold: the paths, or its first refusal.
#[tactic(auto, using(crate::proofs::Duct::duct_made, fields::proofs::Counting::path_count, fields::proofs::Counting::second_count))]
fn check_duct(ranged: &Ranged) -> Result<Paths, Refusal>
    ensures { result ≡ checked_by (duct_rows ranged.now) (paths_of ranged.now) }
{
    let fields = ranged.fields;
    let pretensioned = fields.is_pretensioned();
    duct::check_kind(pretensioned, fields.counts.segments)?;
    duct::check_second_path(pretensioned, fields.counts.second_segments)?;
    let paths = ranged.paths();
    let first = paths.first;
    duct::check_friction(first.friction)?;
    if let Some(second) = paths.second {
        duct::check_friction(second.friction)?;
        let tendon_length = fields.numbers[places::TENDON_LENGTH];
        duct::check_path_lengths(first.length + second.length, tendon_length)?;
    }
    Ok(paths)
}

// From row "codes" to row "duct": the paths, or the first refusal.
#[tactic(auto, using(crate::proofs::Laws::to_duct))]
fn check_to_duct(fields: &Fields) -> Result<Paths, Refusal>
    ensures { result ≡ checked_by (codes_to_duct fields.now) (paths_of fields.now) }
{
    check_to_hours(fields)?;
    check_duct(&Ranged { fields })
}

// Rows "buffers", "section" and "creep", where those above hold.
#[tactic(auto, using(checks::proofs::Cascade::rows_made, fields::proofs::Counting::ages_counted))]
fn check_below_duct(ranged: &Ranged, paths: Paths, room: Room) -> Result<Member, Refusal>
    requires { paths ≡ paths_of ranged.now }
    ensures { result ≡ checked_by (buffers_to_creep ranged.now room.report room.scratch) (member_of ranged.now) }
{
    let fields = ranged.fields;
    checks::buffers::check(fields.counts.ages, room).map_err(Refusal::Buffers)?;
    let kappa = ranged.kappa();
    if MOST_KAPPA < kappa {
        return Err(Refusal::Section);
    }
    let creep = ranged.creep();
    if MOST_CREEP_OF_KAPPA < creep * kappa {
        return Err(Refusal::Creep);
    }
    Ok(ranged.member(paths, kappa, creep))
}

// From row "codes" to row "creep": the accepted member, or the first refusal.
#[tactic(auto, using(crate::proofs::Laws::to_creep, crate::proofs::Laws::paths_given))]
pub fn check_member(fields: &Fields, room: Room) -> Result<Member, Refusal>
    ensures { result ≡ checked_of fields.now room.report room.scratch }
{
    let paths = check_to_duct(fields)?;
    check_below_duct(&Ranged { fields }, paths, room)
}
