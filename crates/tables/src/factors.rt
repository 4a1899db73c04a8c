// SCF, SSF and MCF. Each is read once for a member, so that the library's search over the rows serves.
ghost use Rattle.std.specs.Prelude.{◌≡◌, ◌≤◌};
ghost use Rattle.ticks.specs.Ticks.{T};
ghost use Rattle.tables.specs.Tables.{reading, scf_rows, ssf_rows, mcf_rows, size_unit, mcf_unit};

use crate::{DAY, Row, at_row, on_line};
use ticks::TICKS_PER_UNIT;

const INCH: u32 = TICKS_PER_UNIT as u32;

// What 1.00 reads of SCF and SSF, and of MCF.
const SIZE_UNIT: u64 = 102_400;

pub const MCF_UNIT: u64 = 72_000;

static SCF: [Row; 5] = [
    Row(INCH, 105),
    Row(2 * INCH, 96),
    Row(3 * INCH, 87),
    Row(4 * INCH, 77),
    Row(5 * INCH, 68),
];

static SSF: [Row; 6] = [
    Row(INCH, 104),
    Row(2 * INCH, 96),
    Row(3 * INCH, 86),
    Row(4 * INCH, 77),
    Row(5 * INCH, 69),
    Row(6 * INCH, 60),
];

static MCF: [Row; 7] = [
    Row(3 * DAY, 114),
    Row(5 * DAY, 107),
    Row(7 * DAY, 100),
    Row(10 * DAY, 96),
    Row(20 * DAY, 84),
    Row(30 * DAY, 72),
    Row(40 * DAY, 60),
];

// A factor at x, by its rows: on the line between the two rows that x lies between; at the last row past it.
fn factor(unit: u64, rows: &[Row], x: u32) -> u64
    requires { unit ≤ T }
    ensures { result ≡ reading unit rows.now x }
{
    match rows.iter().position(|row| x < row.0) {
        Some(0) => at_row(unit, rows[0]),
        Some(high) => on_line(unit, x, rows[high - 1], rows[high]),
        None => rows.last().map_or(0, |row| at_row(unit, *row)),
    }
}

pub fn scf(volume_to_surface: u32) -> u64
    ensures { result ≡ reading size_unit scf_rows volume_to_surface }
{
    factor(SIZE_UNIT, &SCF, volume_to_surface)
}

pub fn ssf(volume_to_surface: u32) -> u64
    ensures { result ≡ reading size_unit ssf_rows volume_to_surface }
{
    factor(SIZE_UNIT, &SSF, volume_to_surface)
}

pub fn mcf(transfer: u32) -> u64
    ensures { result ≡ reading mcf_unit mcf_rows transfer }
{
    factor(MCF_UNIT, &MCF, transfer)
}
