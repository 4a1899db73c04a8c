// The two entries for C hosts, on numbers and byte slices; `stratelyn_c` exports them. Their one promise is the record `Served`.
#![tactic(auto)]

ghost use Rattle.card.specs.Card.{card_outcome};
ghost use Rattle.numbers.specs.Numbers.{bytes_outcome};
ghost use Rattle.stratelyn.specs.Hosts.{Served};

mod run;

use card::Cards;
use numbers::ListBytes;

// The run of a card, as bytes.
pub fn stratelyn_run_card(
    card: &[u8],
    report: &mut [u8],
    scratch: &mut [u8],
    reply: &mut [u8],
) -> u64
    ensures { Served (card_outcome card.now) result report.new report.old
        scratch.new scratch.old reply.new reply.old }
{
    run::serve::<Cards>(card, report, scratch, reply)
}

// The run of a list of doubles, by their bits.
pub fn stratelyn_run_list(
    list: &[u8],
    report: &mut [u8],
    scratch: &mut [u8],
    reply: &mut [u8],
) -> u64
    ensures { Served (bytes_outcome list.now) result report.new report.old
        scratch.new scratch.old reply.new reply.old }
{
    run::serve::<ListBytes>(list, report, scratch, reply)
}
