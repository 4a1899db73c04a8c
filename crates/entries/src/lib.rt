// The entries: a card, a list of doubles, or what any reader reads, over lent buffers of any length. Their one promise is the record
// `Promise`.
#![tactic(auto)]

ghost use Rattle.card.specs.Card.{card_outcome};
ghost use Rattle.list.specs.Lists.{list_outcome};
ghost use Rattle.entries.specs.Promise.{Promise};

mod ages;
mod rows;
pub mod run;

use card::Cards;
use fields::refusal::Refusal;
use list::Lists;
use stages::before::BeforeAges;

// What an accepted run replies: the losses before the ages and the stress after them, and the last stress in psi.
#[derive(Clone, Copy)]
pub struct Reply {
    pub before: BeforeAges,
    pub last: f64,
}

// The run of a card, as bytes.
pub fn run_card(card: &[u8], report: &mut [u64], scratch: &mut [u64]) -> Result<Reply, Refusal>
    ensures { Promise (card_outcome card.now)
        result report.new report.old scratch.new scratch.old }
{
    run::run::<Cards>(card, report, scratch)
}

// The run of a list of doubles.
pub fn run_list(list: &[f64], report: &mut [u64], scratch: &mut [u64]) -> Result<Reply, Refusal>
    ensures { Promise (list_outcome list.now)
        result report.new report.old scratch.new scratch.old }
{
    run::run::<Lists>(list, report, scratch)
}
