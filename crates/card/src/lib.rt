// Cards: how one is read.
#![tactic(auto)]

ghost use Rattle.std.specs.Prelude.{◌≡◌, ◌≤◌, length};
ghost use Rattle.fields.specs.Quantities.{head_fields};
ghost use Rattle.fields.specs.Sizes.{most_fields};
ghost use Rattle.fields.specs.Outcomes.{over};
ghost use Rattle.line.specs.Lines.{ended};
ghost use Rattle.card.specs.Card.{shape, counts_in, announced, line_behind, outcome_of, card_outcome};
ghost use Rattle.card.specs.Conditions.{AnnouncedFit};
ghost use Rattle.card.specs.Laws.{card_accepted};

use fields::layout::{AGES, HEAD_FIELDS, PER_AGE, PER_SEGMENT, SECOND_SEGMENTS, SEGMENTS};
use fields::limits::{
    BLANK_SLIP, LEAST_AGES, MOST_AGES, MOST_FIELDS, MOST_SEGMENTS, MOST_SEGMENTS_OF_BOTH,
};
use fields::read::{self, Counts, Reader};
use fields::refusal::Refusal;
use fields::{layout, places};
use line::lines::Unread;
use line::{Blank, COLUMNS};

const HEAD_LINES: usize = 4;

// The fields on each of lines 1 to 4.
const FIELDS_BY_LINE: [usize; HEAD_LINES] = [7, 6, 5, 7];

// The bytes of lines 1 to 4, of a segment's line and of an age's, each with its line feed; and of the longest good card.
const HEAD_BYTES: usize = COLUMNS * HEAD_FIELDS + HEAD_LINES;

const SEGMENT_BYTES: usize = COLUMNS * PER_SEGMENT + 1;

const AGE_BYTES: usize = COLUMNS * PER_AGE + 1;

pub const MOST_BYTES: usize = HEAD_BYTES
    + SEGMENT_BYTES * MOST_SEGMENTS_OF_BOTH
    + AGE_BYTES * MOST_AGES;

// A blank slip reads so many ticks, and no other field may be blank.
const SLIP: Blank = Blank {
    field: layout::SLIP,
    reads: BLANK_SLIP,
};

// The first wrong or missing line is the place of a refusal.
fn shape(lines: Result<(), u64>) -> Result<(), Refusal>
    ensures { result ≡ shape lines }
{
    lines.map_err(Refusal::Shape)
}

// The counts of segments and of ages, ranged.
fn counts(fields: &[u64]) -> Result<Counts, Refusal>
    requires { head_fields ≤ length fields.now }
    ensures { result ≡ counts_in fields.now }
{
    let segments = read::count_within(SEGMENTS, 0, MOST_SEGMENTS, fields[places::SEGMENTS])?;
    let ages = read::count_within(AGES, LEAST_AGES, MOST_AGES, fields[places::AGES])?;
    let second = fields[places::SECOND_SEGMENTS];
    let second_segments = read::count_within(SECOND_SEGMENTS, 0, MOST_SEGMENTS, second)?;
    Ok(Counts {
        segments,
        ages,
        second_segments,
    })
}

// The lines of segments and of ages, which end the card. The first wrong line, if there is one.
fn read_announced(unread: &mut Unread, counts: Counts, fields: &mut [u64]) -> Result<(), u64>
    requires { AnnouncedFit counts unread.old fields.old }
    ensures value { result ≡ ended (line_behind counts) (announced unread.old.blank counts unread.old.bytes.now).rest }
    ensures fields_after { fields.new
        ≡ over (announced unread.old.blank counts unread.old.bytes.now).numbers fields.old }
{
    let segments = counts.segments + counts.second_segments;
    unread.read_lines(&[PER_SEGMENT; MOST_SEGMENTS_OF_BOTH][..segments], fields)?;
    let read = PER_SEGMENT * segments;
    unread.read_lines(&[PER_AGE; MOST_AGES][..counts.ages], &mut fields[read..])?;
    unread.end()
}

// What a card gives, by which of its fields may be blank; the numbers before its first wrong field are written at the front of
// `fields`.
fn read_into(card: &[u8], blank: Option<Blank>, fields: &mut [u64]) -> Result<Counts, Refusal>
    requires { most_fields ≤ length fields.old }
    ensures value { result ≡ (outcome_of blank card.now).reading }
    ensures fields_after { fields.new ≡ over (outcome_of blank card.now).numbers fields.old }
{
    let mut unread = Unread {
        bytes: card,
        line: 1,
        field: 1,
        blank,
    };
    shape(unread.read_lines(&FIELDS_BY_LINE, fields))?;
    let counts = counts(fields)?;
    shape(read_announced(&mut unread, counts, &mut fields[HEAD_FIELDS..]))?;
    Ok(counts)
}

// The reader of cards.
pub struct Cards;

impl Reader for Cards {
    type Item = u8;

    ghost outcome = { card_outcome };

    #[tactic(auto, unfolding(crate::specs::Card::card_outcome))]
    fn read(card: &[u8], fields: &mut [u64; MOST_FIELDS]) -> Result<Counts, Refusal> {
        read_into(card, Some(SLIP), fields)
    }

    ghost accepted = { card_accepted };
}

// What a card gives; the numbers before its first wrong field are written at the front of `fields`, which has room for every
// card.
pub fn read_card(card: &[u8], fields: &mut [u64; MOST_FIELDS]) -> Result<Counts, Refusal>
    ensures value { result ≡ (card_outcome card.now).reading }
    ensures fields_after { fields.new ≡ over (card_outcome card.now).numbers fields.old }
{
    Cards::read(card, fields)
}
