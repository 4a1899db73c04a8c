// Row "buffers".
ghost use Rattle.std.specs.Prelude.{◌≡◌, ◌≤◌};
ghost use Rattle.fields.specs.Limits.{most_ages};
ghost use Rattle.checks.specs.Rows.{checked, buffers};

use crate::row;
use fields::limits::PER_ROW;

// How many numbers the lent buffers hold.
#[derive(Clone, Copy)]
pub struct Room {
    pub report: usize,
    pub scratch: usize,
}

// The places of the two buffers.
const REPORT: u64 = 1;

const SCRATCH: u64 = 2;

#[tactic(auto, using(crate::proofs::Rows::first))]
pub fn check(ages: usize, room: Room) -> Result<(), u64>
    requires { ages ≤ most_ages }
    ensures { result ≡ checked (buffers ages room.report room.scratch) }
{
    let rows = PER_ROW * ages;
    row::check(rows <= room.report, REPORT)?;
    row::check(rows <= room.scratch, SCRATCH)
}
