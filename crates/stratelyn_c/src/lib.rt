// The two entries for C hosts, exported under the names that include/stratelyn.h declares. Each calls the entry of `stratelyn` that has
// its name, and promises the same.
#![tactic(auto)]

ghost use Rattle.card.specs.Card.{card_outcome};
ghost use Rattle.numbers.specs.Numbers.{bytes_outcome};
ghost use Rattle.stratelyn.specs.Hosts.{Served};

// The run of a card, as bytes.
#[unsafe(no_mangle)]
pub extern "C" fn stratelyn_run_card(
    card: &[u8],
    report: &mut [u8],
    scratch: &mut [u8],
    reply: &mut [u8],
) -> u64
    ensures { Served (card_outcome card.now) result report.new report.old
        scratch.new scratch.old reply.new reply.old }
{
    stratelyn::stratelyn_run_card(card, report, scratch, reply)
}

// The run of a list of doubles, by their bits.
#[unsafe(no_mangle)]
pub extern "C" fn stratelyn_run_list(
    list: &[u8],
    report: &mut [u8],
    scratch: &mut [u8],
    reply: &mut [u8],
) -> u64
    ensures { Served (bytes_outcome list.now) result report.new report.old
        scratch.new scratch.old reply.new reply.old }
{
    stratelyn::stratelyn_run_list(list, report, scratch, reply)
}
