// Refusals: their numbers and places.
ghost use Rattle.std.specs.Prelude.{◌≡◌};
ghost use Rattle.fields.specs.Refusals.{number, place};

use crate::places;

// The fields that the rows "section" and "creep", the slip of an anchor and the lengths of two paths give as their places.
const AREA_FIELD: u64 = (places::AREA + 1) as u64;

const STEEL_AREA_FIELD: u64 = (places::STEEL_AREA + 1) as u64;

const TENDON_LENGTH_FIELD: u64 = (places::TENDON_LENGTH + 1) as u64;

// 13 and 14 have one place each, which is no field.
const PRETENSIONED_PLACE: u64 = 1;

const SECOND_PATH_PLACE: u64 = 2;

// A case for each row of document 01's table, with its place where that varies; and of document 02, for 13, an elongation sheet of a
// pretensioned card, for 14, a second path on one, for 15, two paths whose lengths do not make up the tendon's, for 12, a slip that
// reaches beyond the tendon's length, and for 11, the stress above 0.80 F after a gain.
#[derive(Clone, Copy)]
pub enum Refusal {
    Shape(u64),
    Doubles(u64),
    Codes(u64),
    Ranges(u64),
    Hours(u64),
    Pretensioned,
    Duct(u64),
    SecondPath,
    PathLengths,
    Buffers(u64),
    Section,
    Creep,
    AnchorSet,
    Stress(u64),
    Overstress(u64),
}

impl Refusal {
    pub fn number(self) -> u64
        ensures { result ≡ number self }
    {
        match self {
            Refusal::Shape(_) => 8,
            Refusal::Doubles(_) => 9,
            Refusal::Codes(_) => 1,
            Refusal::Ranges(_) => 2,
            Refusal::Hours(_) => 3,
            Refusal::Pretensioned => 13,
            Refusal::Duct(_) => 4,
            Refusal::SecondPath => 14,
            Refusal::PathLengths => 15,
            Refusal::Buffers(_) => 10,
            Refusal::Section => 5,
            Refusal::Creep => 6,
            Refusal::AnchorSet => 12,
            Refusal::Stress(_) => 7,
            Refusal::Overstress(_) => 11,
        }
    }

    pub fn place(self) -> u64
        ensures { result ≡ place self }
    {
        match self {
            Refusal::Shape(line) => line,
            Refusal::Doubles(field) => field,
            Refusal::Codes(field) => field,
            Refusal::Ranges(field) => field,
            Refusal::Hours(field) => field,
            Refusal::Pretensioned => PRETENSIONED_PLACE,
            Refusal::Duct(check) => check,
            Refusal::SecondPath => SECOND_PATH_PLACE,
            Refusal::PathLengths => TENDON_LENGTH_FIELD,
            Refusal::Buffers(buffer) => buffer,
            Refusal::Section => AREA_FIELD,
            Refusal::Creep => STEEL_AREA_FIELD,
            Refusal::AnchorSet => TENDON_LENGTH_FIELD,
            Refusal::Stress(age) => age,
            Refusal::Overstress(age) => age,
        }
    }
}
