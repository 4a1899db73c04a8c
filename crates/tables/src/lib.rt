// Rows that straight lines join, as the tables of factors and of shares have them.
#![tactic(auto)]

ghost use Rattle.std.specs.Prelude.{◌≡◌, ◌≤◌};
ghost use Rattle.tables.specs.Tables.{at_row, on_line};
ghost use Rattle.tables.specs.Conditions.{Between};
ghost use Rattle.ticks.specs.Ticks.{T};

pub mod factors;
pub mod shares;

// Where a row stands, in ticks of inch or in hours, and its value in hundredths.
#[derive(Clone, Copy)]
pub struct Row(pub u32, pub u8);

pub(crate) const DAY: u32 = 24;

const HUNDRED: u64 = 100;

pub(crate) fn at_row(unit: u64, r: Row) -> u64
    requires { unit ≤ T }
    ensures { result ≡ at_row unit r }
{
    unit * u64::from(r.1) / HUNDRED
}

pub(crate) fn on_line(unit: u64, x: u32, low: Row, high: Row) -> u64
    requires { Between unit x low high }
    ensures { result ≡ on_line unit x low high }
{
    let here = u64::from(x);
    let from = u64::from(low.0);
    let to = u64::from(high.0);
    let weighed = u64::from(low.1) * (to - here) + u64::from(high.1) * (here - from);
    unit * weighed / (HUNDRED * (to - from))
}
