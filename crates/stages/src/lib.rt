// What a member loses at each stage: along its paths and at the anchors, before the ages, and in an interval between two ends, where an
// added moment lifts the stress.

#![tactic(auto)]

pub mod before;
pub mod bounded;
pub mod ends;
pub mod intervals;
pub mod path;
pub mod stress;
