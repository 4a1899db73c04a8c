// The shares of creep and shrinkage: at each row, an hour after it, half way to the next row and an hour before that; then at the
// end of the service life and an hour past it.
use crate::print::{print_numbers, print_title};
use coefficient::clocks::{HoursSinceCuring, HoursSinceTransfer, SERVICE_LIFE};

pub(crate) const DAY: u32 = 24;

// What creep's and shrinkage's clocks read at the end of the service life, if both start a day after casting.
const LIFE: u32 = SERVICE_LIFE - DAY;

// The hours of a share's twelve rows at days, and of the one at the end of the service life.
const ROWS: usize = 13;

const CREEP_ROWS: [u32; ROWS] = [
    0,
    DAY,
    2 * DAY,
    5 * DAY,
    7 * DAY,
    10 * DAY,
    20 * DAY,
    30 * DAY,
    60 * DAY,
    90 * DAY,
    180 * DAY,
    365 * DAY,
    LIFE,
];

const SHRINKAGE_ROWS: [u32; ROWS] = [
    0,
    DAY,
    3 * DAY,
    5 * DAY,
    7 * DAY,
    10 * DAY,
    20 * DAY,
    30 * DAY,
    60 * DAY,
    90 * DAY,
    180 * DAY,
    365 * DAY,
    LIFE,
];

fn print_shares<F: Fn(u32) -> u64>(rt: &impl Print, share: F, rows: &[u32; ROWS])
    requires { F.IsAlwaysCallable share }
{
    for (low, high) in rows.iter().zip(&rows[1..]) {
        for hour in [
            *low,
            low.saturating_add(1),
            low.midpoint(*high),
            high.saturating_sub(1),
        ] {
            print_numbers(rt, &[u64::from(hour), share(hour)]);
        }
    }
    for hour in [LIFE, LIFE + 1] {
        print_numbers(rt, &[u64::from(hour), share(hour)]);
    }
}

pub(crate) fn print_creep_shares(rt: &impl Print) {
    print_title(rt, "hours since transfer, creep share");
    let share = |hour| coefficient::creep_share(HoursSinceTransfer(LIFE), HoursSinceTransfer(hour));
    print_shares(rt, share, &CREEP_ROWS);
}

pub(crate) fn print_shrinkage_shares(rt: &impl Print) {
    print_title(rt, "hours since the end of curing, shrinkage share");
    let share = |hour| coefficient::shrinkage_share(HoursSinceCuring(LIFE), HoursSinceCuring(hour));
    print_shares(rt, share, &SHRINKAGE_ROWS);
}
