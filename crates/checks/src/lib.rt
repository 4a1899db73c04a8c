// The checks of the fields, row by row of document 01's table of refusals: codes, ranges, hours, duct and buffers. Each row gives the
// place of its first check that fails, if one does.

#![tactic(auto)]

pub mod buffers;
pub mod codes;
pub mod duct;
pub mod hours;
pub mod ranges;
pub mod row;
