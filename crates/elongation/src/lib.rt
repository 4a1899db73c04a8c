// The elongation sheet: how far the strand comes out at the first jack, segment by segment of its path. Its one promise is the record
// `SheetPromise`.
#![tactic(auto)]

ghost use Rattle.card.specs.Card.{card_outcome};
ghost use Rattle.elongation.specs.Promise.{SheetPromise};

mod checking;
pub mod sheet;
mod stretching;

use fields::limits::MOST_FIELDS;
use fields::read::Fields;
use fields::refusal::Refusal;

// The sum of the segments' elongations and its measurable part, in ticks of inch.
#[derive(Clone, Copy)]
pub struct Total {
    pub sum: u64,
    pub measurable: u64,
}

// The sheet of a card, as bytes: the elongation of each segment goes to the front of `sheet`.
pub fn elongation_sheet(card: &[u8], sheet: &mut [u64]) -> Result<Total, Refusal>
    ensures { SheetPromise (card_outcome card.now) result sheet.new sheet.old }
{
    let mut numbers = [0u64; MOST_FIELDS];
    let counts = card::read_card(card, &mut numbers)?;
    sheet::of_fields(&Fields::new(&numbers, counts), sheet)
}
