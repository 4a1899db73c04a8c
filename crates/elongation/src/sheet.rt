// The sheet of fields that a reader has filled.
ghost use Rattle.std.specs.Prelude.{length};
ghost use Rattle.elongation.specs.Sheet.{sheet_result};
ghost use Rattle.elongation.specs.Conditions.{Answered};

use crate::{Total, checking, stretching};
use fields::limits::HUNDREDTHS;
use fields::read::Fields;
use fields::refusal::Refusal;

// The measurable part, of a hundred.
const MEASURABLE: u64 = 80;

pub fn of_fields(fields: &Fields, sheet: &mut [u64]) -> Result<Total, Refusal>
    ensures { Answered (sheet_result fields.now (length sheet.old)) result sheet.new sheet.old }
{
    checking::check_sheet(fields, sheet.len())?;
    let sum = stretching::stretch(fields, sheet);
    Ok(Total {
        sum,
        measurable: MEASURABLE * sum / HUNDREDTHS,
    })
}
