// The shares of creep and shrinkage, which are read for every age. Each row is read where it is declared, at a place that is a constant
// once the functions are inlined, so that the compiler works its numbers into the instructions.
ghost use Rattle.std.specs.Prelude.{◌≡◌};
ghost use Rattle.ticks.specs.Ticks.{T};
ghost use Rattle.tables.specs.Tables.{reading, to_one, creep_rows, shrinkage_rows};
ghost use Rattle.tables.specs.Conditions.{DayRows, Within};

use crate::{DAY, Row, at_row, on_line};
use ticks::T;

const DAY_ROWS: usize = 12;

static CREEP: [Row; DAY_ROWS] = [
    Row(0, 0), // transfer
    Row(DAY, 8),
    Row(2 * DAY, 15),
    Row(5 * DAY, 18),
    Row(7 * DAY, 23),
    Row(10 * DAY, 24),
    Row(20 * DAY, 30),
    Row(30 * DAY, 35),
    Row(60 * DAY, 45),
    Row(90 * DAY, 51),
    Row(180 * DAY, 61),
    Row(365 * DAY, 74),
];

static SHRINKAGE: [Row; DAY_ROWS] = [
    Row(0, 0), // the end of curing
    Row(DAY, 8),
    Row(3 * DAY, 15),
    Row(5 * DAY, 20),
    Row(7 * DAY, 22),
    Row(10 * DAY, 27),
    Row(20 * DAY, 36),
    Row(30 * DAY, 42),
    Row(60 * DAY, 55),
    Row(90 * DAY, 62),
    Row(180 * DAY, 68),
    Row(365 * DAY, 86),
];

// The rows at days have the places 0 to 11. Of the eleven lines between them the first six end at place 6 and the last six begin at 5:
// the line that both have is read with the first.
const LAST: usize = DAY_ROWS - 1;

const FIRST_SIX_END: usize = 6;

const LAST_SIX_BEGIN: usize = 5;

// Within the six lines from the row at `place` on: the three before the row in their middle, or the three after it. A reading takes 25
// instructions so, on the mean of early and late hours; along the rows from the first one on it takes 42, and by the library's search over
// them 60 (callgrind).
#[inline(always)]
#[tactic(auto, using(crate::proofs::Readings::line_read))]
fn within_six(days: &[Row; DAY_ROWS], place: usize, x: u32) -> u64
    requires { Within 6 days.now place x }
    ensures { result ≡ reading T days.now x }
{
    let fourth = days[place + 3];
    if x < fourth.0 {
        let second = days[place + 1];
        if x < second.0 {
            return on_line(T, x, days[place], second);
        }
        let third = days[place + 2];
        if x < third.0 {
            return on_line(T, x, second, third);
        }
        return on_line(T, x, third, fourth);
    }
    let fifth = days[place + 4];
    if x < fifth.0 {
        return on_line(T, x, fourth, fifth);
    }
    let sixth = days[place + 5];
    if x < sixth.0 {
        return on_line(T, x, fifth, sixth);
    }
    on_line(T, x, sixth, days[place + 6])
}

// A share at x, by its rows at days. The clock reads `life` at the end of the service life.
#[inline(always)]
#[tactic(auto, using(crate::proofs::Readings::share_read))]
fn share(days: &[Row; DAY_ROWS], life: u32, x: u32) -> u64
    requires { DayRows days.now }
    ensures { result ≡ reading T (to_one days.now life) x }
{
    if x < days[FIRST_SIX_END].0 {
        return within_six(days, 0, x);
    }
    let last = days[LAST];
    if x < last.0 {
        return within_six(days, LAST_SIX_BEGIN, x);
    }
    let end = Row(life, 100);
    if x < end.0 {
        return on_line(T, x, last, end);
    }
    at_row(T, end)
}

pub fn creep(life: u32, x: u32) -> u64
    ensures { result ≡ reading T (creep_rows life) x }
{
    share(&CREEP, life, x)
}

pub fn shrinkage(life: u32, x: u32) -> u64
    ensures { result ≡ reading T (shrinkage_rows life) x }
{
    share(&SHRINKAGE, life, x)
}
