// Numbers in columns of 14, right-justified behind spaces, and lines of them.
ghost use Rattle.std.specs.Prelude.{◌≡◌, ◌≤◌, length};
ghost use Rattle.fields.specs.Quantities.{columns};
ghost use Rattle.fields.specs.Outcomes.{over};
ghost use Rattle.line.specs.Lines.{line_length};
ghost use Rattle.text.specs.Columns.{digit_or_space, in_columns, line_of, Holds};

use line::{COLUMNS, LINE_FEED, SPACE, ZERO};

// What stands in a column, where `rest` is left of the number: its last digit, or a space before the first digit. The last column
// has a digit even of 0.
fn digit_or_space(rest: u64, column: usize) -> u8
    ensures { result ≡ digit_or_space rest column }
{
    if rest == 0 && column < COLUMNS - 1 {
        return SPACE;
    }
    ZERO + (rest % 10) as u8
}

// A number in the columns at the front of a part, from the last to the first. By hand: `write!` would lay out every digit of a number wider
// than its columns, of which the last 14 stay. By number: the invariant of a loop over `iter_mut` with `rev` has no name for what is
// written.
#[tactic(auto, using(crate::proofs::Laying::none_laid, crate::proofs::Laying::one_more, crate::proofs::Laying::all_laid))]
fn put_number(part: &mut [u8], number: u64)
    requires { columns ≤ length part.old }
    ensures { part.new ≡ over (in_columns number) part.old }
{
    let mut rest = number;
    for column in (0..COLUMNS).rev() {
        part[column] = digit_or_space(rest, column);
        rest /= 10;
    }
}

// A line of numbers at the front of a part; how many bytes it has.
pub(crate) fn put_line(part: &mut [u8], numbers: &[u64]) -> usize
    requires { line_length (length numbers.now) ≤ length part.old }
    ensures { Holds (line_of numbers.now) result part.new part.old }
{
    // Cut by place: after a loop over `chunks_exact_mut` a proof knows the part's length, and no byte of it.
    for (done, number) in numbers.iter().enumerate() {
        put_number(&mut part[COLUMNS * done..], *number);
    }
    let end = COLUMNS * numbers.len();
    part[end] = LINE_FEED;
    end + 1
}
