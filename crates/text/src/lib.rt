// What the programs `report` and `sheet` print, laid out in a lent buffer: numbers in columns of 14, right-justified behind spaces. The
// core has no heap, and neither have its texts: each buffer has the bytes of the longest line, input or text. What lays a line or more out
// gives how many bytes it has filled, and the rest is lent to the next, the form that document 01 names for rows.
#![tactic(auto)]

ghost use Rattle.std.specs.Prelude.{take, Ok};
ghost use Rattle.text.specs.Columns.{line_of, most_per_line, Holds};
ghost use Rattle.text.specs.Conditions.{RoomForText, Counted};
ghost use Rattle.text.specs.Text.{refusal_text, before_text, read_text, text_of, PrintsAll};

mod answers;
mod columns;
mod sheets;

use fields::limits::{MOST_AGES, MOST_FIELDS, PER_ROW};
use fields::read::Fields;
use fields::refusal::Refusal;
use line::COLUMNS;
use stages::before::BeforeAges;

// The most numbers of a line, an age's: its number, its hour and its row. And the bytes of such a line.
pub const MOST_PER_LINE: usize = 2 + PER_ROW;

pub const MOST_LINE_BYTES: usize = COLUMNS * MOST_PER_LINE + 1;

// The bytes of the longest text, a report's: a line before the ages, and one for each.
pub const MOST_TEXT_BYTES: usize = MOST_LINE_BYTES * (1 + MOST_AGES);

// Which program prints.
#[derive(Clone, Copy)]
pub enum Program {
    Report,
    Sheet,
}

// How much of an input decides its text: one byte more than the longest good card has.
pub const MOST_READ_BYTES: usize = card::MOST_BYTES + 1;

// A line of these numbers, cut to the most that a line has; how many bytes it has.
#[tactic(auto, using(crate::proofs::Laying::counted, std::proofs::lemmas::List::take_min))]
pub fn line_of(numbers: &[u64], line: &mut [u8; MOST_LINE_BYTES]) -> usize
    ensures holds { Holds (line_of (take most_per_line numbers.now)) result line.new line.old }
    ensures counted { Counted result line.new }
{
    let most = MOST_PER_LINE.min(numbers.len());
    columns::put_line(line, &numbers[..most])
}

// The line of a refusal; how many bytes it has.
pub fn line_of_refusal(refusal: Refusal, line: &mut [u8; MOST_LINE_BYTES]) -> usize
    ensures holds { Holds (refusal_text refusal) result line.new line.old }
    ensures counted { Counted result line.new }
{
    answers::put_refusal(line, refusal)
}

// The line of the losses before the ages and of the stress after them; how many bytes it has.
pub fn line_before_ages(before: BeforeAges, line: &mut [u8; MOST_LINE_BYTES]) -> usize
    ensures holds { Holds (before_text before) result line.new line.old }
    ensures counted { Counted result line.new }
{
    answers::put_before(line, before)
}

// What is printed of fields that a reader has filled. A trait or a closure in place of the `match` would name the program twice, since the
// definition of its text takes the enum. From here on the room of a text is asked for: with an array in place of the slice the proofs did
// not close.
fn put_fields(program: Program, part: &mut [u8], fields: &Fields) -> usize
    requires { RoomForText part.old }
    ensures { Holds (read_text program (Ok fields.now)) result part.new part.old }
{
    match program {
        Program::Report => answers::put_run(part, fields),
        Program::Sheet => sheets::put_sheet(part, fields),
    }
}

// What is printed for a card.
#[tactic(auto, unfolding(crate::specs::Text::text_of))]
fn put_card(program: Program, part: &mut [u8], card: &[u8]) -> usize
    requires { RoomForText part.old }
    ensures { Holds (text_of program card.now) result part.new part.old }
{
    let mut numbers = [0u64; MOST_FIELDS];
    match card::read_card(card, &mut numbers) {
        Ok(counts) => put_fields(program, part, &Fields::new(&numbers, counts)),
        Err(refusal) => answers::put_refusal(part, refusal),
    }
}

// What a program prints for an input that was read into a buffer until that was full or the input ended, so many bytes of it; how many
// bytes the text has. The buffer comes whole, with how much of it is filled: by its size the contract says that what was not read decides
// nothing.
#[tactic(auto, using(crate::proofs::Laying::counted, crate::proofs::Texts::input_text, std::proofs::lemmas::List::take_min))]
pub fn text_of_input(
    program: Program,
    buffer: &[u8; MOST_READ_BYTES],
    read: usize,
    text: &mut [u8; MOST_TEXT_BYTES],
) -> usize
    ensures prints_all { PrintsAll program buffer.now read result text.new text.old }
    ensures counted { Counted result text.new }
{
    let bytes = read.min(buffer.len());
    put_card(program, text, &buffer[..bytes])
}
