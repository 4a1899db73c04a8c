// The fields of a card or a list, one flat sequence of numbers: field k of document 01 is element k - 1. And the refusals.

#![tactic(auto)]

pub mod layout;
pub mod limits;
pub mod parts;
pub mod places;
pub mod read;
pub mod refusal;
pub mod segments;
