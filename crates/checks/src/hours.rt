// Row "hours". A place is the number of a field.
ghost use Rattle.std.specs.Prelude.{◌≡◌};
ghost use Rattle.fields.specs.Along.{ages_of};
ghost use Rattle.checks.specs.Rows.{checked, curing_fits, transfer_fits, hours_of_ages, hours};

use crate::row;
use coefficient::clocks;
use fields::parts::Parts;
use fields::read::Fields;
use fields::segments::Age;
use fields::{limits, places};

fn curing_fits(fields: &Fields) -> bool
    ensures { result ≡ curing_fits fields.now }
{
    let curing = fields.numbers[places::END_OF_CURING];
    let transfer = fields.numbers[places::TRANSFER];
    curing <= transfer
        && (!fields.is_pretensioned() || curing == transfer)
        && (!fields.is_moist() || curing <= limits::MOST_MOIST_CURING)
}

fn transfer_fits(fields: &Fields) -> bool
    ensures { result ≡ transfer_fits fields.now }
{
    let least = if fields.is_moist() {
        limits::LEAST_MOIST_TRANSFER
    } else {
        limits::LEAST_TRANSFER
    };
    (least..=limits::MOST_TRANSFER).contains(&fields.numbers[places::TRANSFER])
}

// The hours of the ages, above the hour `before` them.
#[tactic(auto, using(crate::proofs::Rows::first), unfolding(crate::specs::Rows::hours_of_ages, crate::specs::Rows::checked))]
pub fn of_ages(ages: Parts<Age>, before: u64) -> Result<(), u64>
    ensures { result ≡ checked (hours_of_ages ages.entry.place before (ages_of ages.entry.fields.now)) }
{
    let mut earlier = before;
    for (place, Age { hour, .. }) in ages {
        let rises = earlier < hour && hour <= u64::from(clocks::SERVICE_LIFE);
        row::check(rises, place)?;
        earlier = hour;
    }
    Ok(())
}

#[tactic(auto, using(crate::proofs::Rows::first), unfolding(crate::specs::Rows::hours))]
pub fn check(fields: &Fields) -> Result<(), u64>
    ensures { result ≡ checked (hours fields.now) }
{
    row::field(curing_fits(fields), places::END_OF_CURING)?;
    row::field(transfer_fits(fields), places::TRANSFER)?;
    of_ages(fields.ages(), fields.numbers[places::TRANSFER])
}
