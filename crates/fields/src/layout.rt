// How the fields of a card or a list are numbered. Field k of document 01 is element k - 1.
use crate::places;

// Fields by their numbers.
pub const SLIP: usize = places::SLIP + 1;

pub const SEGMENTS: usize = places::SEGMENTS + 1;

pub const AGES: usize = places::AGES + 1;

pub const SECOND_SEGMENTS: usize = places::SECOND_SEGMENTS + 1;

// Fields of the first four lines, of a segment and of an age.
pub const HEAD_FIELDS: usize = SECOND_SEGMENTS;

pub const PER_SEGMENT: usize = 3;

pub const PER_AGE: usize = 2;

// The number of the first segment's first field.
pub const FIRST_SEGMENT: u64 = (HEAD_FIELDS + 1) as u64;
