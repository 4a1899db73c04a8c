// The sheet's checks: the card's down to the duct, with 13 before that, and then the room. Of two paths it keeps to the first.
ghost use Rattle.std.specs.Prelude.{◌≡◌};
ghost use Rattle.checks.specs.Rows.{checked_by};
ghost use Rattle.elongation.specs.Sheet.{below_hours, sheet_rows};

use checks::duct;
use fields::read::Fields;
use fields::refusal::Refusal;
use member::ranged::Ranged;

// The place of the one lent buffer.
const SHEET: u64 = 1;

// What is checked below the row "hours". `room` is the length of the lent buffer.
#[tactic(auto, using(checks::proofs::Cascade::row_by_row, checks::proofs::Cascade::one_row, fields::proofs::Counting::path_count))]
fn check_below_hours(ranged: &Ranged, room: usize) -> Result<(), Refusal>
    ensures { result ≡ checked_by (below_hours ranged.now room) tt }
{
    let fields = ranged.fields;
    if fields.is_pretensioned() {
        return Err(Refusal::Pretensioned);
    }
    duct::check_friction(ranged.first_path().friction)?;
    if room < fields.counts.segments {
        return Err(Refusal::Buffers(SHEET));
    }
    Ok(())
}

#[tactic(auto, using(crate::proofs::Passing::below_hours_last))]
pub(crate) fn check_sheet(fields: &Fields, room: usize) -> Result<(), Refusal>
    ensures { result ≡ checked_by (sheet_rows fields.now room) tt }
{
    member::check_to_hours(fields)?;
    check_below_hours(&Ranged { fields }, room)
}
