// Where each quantity of document 01, "The card", stands: field k is element k - 1. And the codes that rules name.

pub const KIND: usize = 0;

pub const STEEL: usize = 1;

pub const ULTIMATE_STRENGTH: usize = 2;

pub const JACKING_STRESS: usize = 3;

pub const DEFLECTOR_LOSS: usize = 4;

pub const SLIP: usize = 5;

pub const TENDON_LENGTH: usize = 6;

pub const CURE: usize = 7;

pub const CONCRETE: usize = 8;

pub const ES: usize = 9;

pub const ECI: usize = 10;

pub const EC: usize = 11;

pub const VOLUME_TO_SURFACE: usize = 12;

pub const AREA: usize = 13;

pub const INERTIA: usize = 14;

pub const ECCENTRICITY: usize = 15;

pub const STEEL_AREA: usize = 16;

pub const OWN_WEIGHT_MOMENT: usize = 17;

pub const END_OF_CURING: usize = 18;

pub const TRANSFER: usize = 19;

pub const WOBBLE: usize = 20;

pub const CURVATURE: usize = 21;

pub const SEGMENTS: usize = 22;

pub const AGES: usize = 23;

pub const SECOND_SEGMENTS: usize = 24;

// Codes stay numbers until row "codes" holds: before it a field may read any number, and the first that is not listed gives the place.
// Where the code reads one by its number, a line says "a code is a number still".
pub const PRETENSIONED: u64 = 1;

pub const STRESS_RELIEVED: u64 = 1;

pub const MOIST: u64 = 1;

pub const NORMAL: u64 = 1;

pub const STRAIGHT: u64 = 1;

pub const PARABOLA: u64 = 2;

pub const BEND: u64 = 3;
