// Fields for which the rows from "codes" to "hours" hold, and what is made of them: the paths, κ, U, S, the hours and the member.
ghost use Rattle.std.specs.Prelude.{◌≡◌};
ghost use Rattle.fields.specs.Quantities.{Quantities};
ghost use Rattle.member.specs.Facts.{most_creep, AtMost};
ghost use Rattle.member.specs.Member.{hours_of, path_of, second_path_of, paths_of, kappa_of, creep_of, shrinkage_of, member_of};
ghost use Rattle.member.specs.Checking.{BelowHours};

use crate::path::{self, Path, Paths};
use crate::{Member, codes, section};
use coefficient::clocks::MemberHours;
use fields::places;
use fields::read::Fields;
use std::marker::Model;

#[derive(Drop)]
pub struct Ranged<'a> {
    pub fields: &'a Fields<'a>,
}

impl<'a> Model for Ranged<'a> {
    ghost Value = { Quantities };

    ghost view = { λ ranged. ranged.fields.now };

    ghost invariant = { λ ranged. BelowHours ranged.fields.now };
}

impl<'a> Ranged<'a> {
    // The path from the first jack.
    #[tactic(auto, using(fields::proofs::Counting::few_segments))]
    pub fn first_path(&self) -> Path
        ensures { result ≡ path_of self.now self.now.path }
    {
        let fields = self.fields;
        let wobble = fields.numbers[places::WOBBLE];
        let curvature = fields.numbers[places::CURVATURE];
        path::path_of(fields.path(), wobble, curvature)
    }

    // The second path, from the far end, if there is one.
    #[tactic(auto, using(fields::proofs::Counting::few_second_segments))]
    fn second_path(&self) -> Option<Path>
        ensures { result ≡ second_path_of self.now }
    {
        let fields = self.fields;
        if !fields.has_second_path() {
            return None;
        }
        let wobble = fields.numbers[places::WOBBLE];
        let curvature = fields.numbers[places::CURVATURE];
        Some(path::path_of(fields.second_path(), wobble, curvature))
    }

    pub(crate) fn paths(&self) -> Paths
        ensures { result ≡ paths_of self.now }
    {
        Paths {
            first: self.first_path(),
            second: self.second_path(),
        }
    }

    pub(crate) fn kappa(&self) -> u64
        ensures { result ≡ kappa_of self.now }
    {
        let fields = self.fields;
        section::kappa_of(
            fields.numbers[places::STEEL_AREA],
            fields.numbers[places::AREA],
            fields.numbers[places::ECCENTRICITY],
            fields.numbers[places::INERTIA],
        )
    }

    pub(crate) fn creep(&self) -> u64
        ensures { AtMost most_creep (creep_of self.now) result }
    {
        let fields = self.fields;
        let cure = codes::cure_of(fields.numbers[places::CURE]);
        let concrete = codes::concrete_of(fields.numbers[places::CONCRETE]);
        let ec = fields.numbers[places::EC] as u32;
        let volume_to_surface = fields.numbers[places::VOLUME_TO_SURFACE] as u32;
        let transfer = fields.numbers[places::TRANSFER] as u32;
        section::whole_creep(cure, concrete, ec, volume_to_surface, transfer)
    }

    fn shrinkage(&self) -> u64
        ensures { result ≡ shrinkage_of self.now }
    {
        let fields = self.fields;
        let concrete = codes::concrete_of(fields.numbers[places::CONCRETE]);
        let ec = fields.numbers[places::EC] as u32;
        let volume_to_surface = fields.numbers[places::VOLUME_TO_SURFACE] as u32;
        section::whole_shrinkage(concrete, ec, volume_to_surface)
    }

    fn hours(&self) -> MemberHours
        ensures { result ≡ hours_of self.now }
    {
        let fields = self.fields;
        MemberHours {
            kind: codes::kind_of(fields.numbers[places::KIND]),
            end_of_curing: fields.numbers[places::END_OF_CURING] as u32,
            transfer: fields.numbers[places::TRANSFER] as u32,
        }
    }

    // The member, of the three that the rows are asked of too.
    #[tactic(auto, unfolding(crate::specs::Member::member_of))]
    pub(crate) fn member(&self, paths: Paths, kappa: u64, creep: u64) -> Member
        requires paths_are { paths ≡ paths_of self.now }
        requires kappa_is { kappa ≡ kappa_of self.now }
        requires creep_is { creep ≡ creep_of self.now }
        ensures { result ≡ member_of self.now }
    {
        let fields = self.fields;
        Member {
            hours: self.hours(),
            steel: codes::steel_of(fields.numbers[places::STEEL]),
            ultimate_strength: fields.numbers[places::ULTIMATE_STRENGTH],
            jacking_stress: fields.numbers[places::JACKING_STRESS],
            deflector_loss: fields.numbers[places::DEFLECTOR_LOSS],
            slip: fields.numbers[places::SLIP],
            length: fields.numbers[places::TENDON_LENGTH],
            es: fields.numbers[places::ES],
            eci: fields.numbers[places::ECI],
            ec: fields.numbers[places::EC],
            inertia: fields.numbers[places::INERTIA],
            eccentricity: fields.numbers[places::ECCENTRICITY],
            own_weight_moment: fields.numbers[places::OWN_WEIGHT_MOMENT],
            paths,
            kappa,
            creep,
            shrinkage: self.shrinkage(),
        }
    }
}
