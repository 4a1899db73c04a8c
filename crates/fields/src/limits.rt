// The limits of documents 01 and 02: of the ranges in "The card", line by line, of the hours, and of the refusals.

use crate::layout::{HEAD_FIELDS, PER_AGE, PER_SEGMENT};
use ticks::{T, TICKS_PER_UNIT};

// ---- Codes

pub const FIRST_CODE: u64 = 1;

pub const LAST_CODE: u64 = 2;

// ---- Line 1

pub const LEAST_ULTIMATE_STRENGTH: u64 = 100_000;

pub const MOST_ULTIMATE_STRENGTH: u64 = 300_000;

pub const LEAST_JACKING_STRESS: u64 = 1_000;

// 0.80 F, of the jacking stress and of the stress after a gain.
pub const MOST_OF_STRENGTH: u64 = 80;

pub const HUNDREDTHS: u64 = 100;

pub const MOST_DEFLECTOR_LOSS: u64 = 20_000;

pub const MOST_SLIP: u64 = 2_048;

// What a blank slip field reads: 3/8 inch.
pub const BLANK_SLIP: u64 = 384;

pub const LEAST_TENDON_LENGTH: u64 = 1_024;

// Of the tendon, and of a segment.
pub const MOST_LENGTH: u64 = 2_097_152;

// ---- Line 2

pub const LEAST_ES: u64 = 20_000_000;

pub const MOST_ES: u64 = 32_000_000;

// Of Eci too, as the most is.
pub const LEAST_EC: u64 = 1_000_000;

pub const MOST_EC: u64 = 8_000_000;

pub const LEAST_VOLUME_TO_SURFACE: u64 = 1_024;

pub const MOST_VOLUME_TO_SURFACE: u64 = 65_536;

// ---- Line 3

pub const LEAST_AREA: u64 = 1_024;

// 2^24
pub const MOST_AREA: u64 = 16_777_216;

pub const LEAST_INERTIA: u64 = 1_024;

// 2^34
pub const MOST_INERTIA: u64 = 17_179_869_184;

pub const MOST_ECCENTRICITY: u64 = 65_536;

pub const LEAST_STEEL_AREA: u64 = 1;

pub const MOST_STEEL_AREA: u64 = 65_536;

// 2^40, for own weight and for all moments together.
pub const MOST_MOMENT: u64 = 1_099_511_627_776;

// ---- Line 4

pub const MOST_WOBBLE: u64 = 2_000;

pub const MOST_CURVATURE: u64 = 400_000;

// Of either path, and of both together.
pub const MOST_SEGMENTS: usize = 64;

pub const MOST_SEGMENTS_OF_BOTH: usize = MOST_SEGMENTS + MOST_SEGMENTS;

pub const LEAST_AGES: usize = 3;

pub const MOST_AGES: usize = 48;

pub const MOST_FIELDS: usize = HEAD_FIELDS
    + PER_SEGMENT * MOST_SEGMENTS_OF_BOTH
    + PER_AGE * MOST_AGES;

// ---- Segments

pub const LEAST_STRAIGHT: u64 = 1;

pub const LEAST_PARABOLA: u64 = 1_024;

pub const MOST_RISE: u64 = 65_536;

pub const MOST_ANGLE: u64 = 4_096;

// ---- Hours

pub const LEAST_MOIST_TRANSFER: u64 = 72;

pub const LEAST_TRANSFER: u64 = 1;

pub const MOST_TRANSFER: u64 = 960;

pub const MOST_MOIST_CURING: u64 = 168;

// ---- The rows from duct to stress

// 1.5 T
pub const MOST_FRICTION: u64 = 3 * T / 2;

// A foot, by which the lengths of two paths together may differ from that of the tendon.
pub const MOST_APART: u64 = TICKS_PER_UNIT;

// 2^30
pub const MOST_KAPPA: u64 = 1_073_741_824;

// 2^56
pub const MOST_CREEP_OF_KAPPA: u64 = 72_057_594_037_927_936;

// 1,000 psi, in ticks.
pub const LEAST_STRESS: u64 = 1_000 * TICKS_PER_UNIT;

// ---- Buffers

// Creep, shrinkage, relaxation, stress and gain of an age.
pub const PER_ROW: usize = 5;

// The numbers of the longest report, and of the longest scratch.
pub const MOST_REPORT: usize = PER_ROW * MOST_AGES;

pub const MOST_SCRATCH: usize = PER_ROW * MOST_AGES;
