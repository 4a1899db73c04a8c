// The answer of a list or of a sheet on standard output.
ghost use Rattle.std.specs.Prelude.{◌≤◌, length};

use crate::lines::LINE_FEED;
use elongation::Total;
use fields::limits::{MOST_FIELDS, PER_ROW};
use fields::refusal::Refusal;
use stages::before::BeforeAges;
use std::io;
use text::{MOST_LINE_BYTES, MOST_PER_LINE};

// Numbers that a report, a scratch or a sheet is lent at most.
const MOST_ROOM: usize = 4096;

// One line on `write_numbers`, as in examples: shared by `input` it could promise nothing, since no contract says what a system prints.
fn print_numbers(rt: &impl Print, numbers: &[u64]) {
    let _ = input::write_numbers(&mut io::writer(rt), numbers);
}

// A line that `put` lays out.
fn print_line<F: FnOnce(&mut [u8; MOST_LINE_BYTES]) -> usize>(rt: &impl Print, put: F)
    requires callable { F.IsAlwaysCallable put }
    requires counted { (line : _) (bytes : _) (after : _) → F.post put line bytes after → bytes ≤ length after.now }
{
    let mut line = [0u8; MOST_LINE_BYTES];
    let bytes = put(&mut line);
    let _ = rt.write_all(&line[..bytes]);
}

fn print_refusal(rt: &impl Print, refusal: Refusal) {
    print_line(rt, |line| text::line_of_refusal(refusal, line));
}

fn print_before(rt: &impl Print, before: BeforeAges) {
    print_line(rt, |line| text::line_before_ages(before, line));
}

// The bits of a double, as one decimal number; of a NaN, an empty line. The line feed is written by itself, so that it stands though the
// number was lost.
fn print_bits(rt: &impl Print, double: f64) {
    if let Some(bits) = ticks::bits_of(double) {
        let _ = print!(rt; "{bits}");
    }
    let _ = rt.write_all(&[LINE_FEED]);
}

// A line for each row of an accepted list's report: how many there are is read off the list once more.
fn print_rows_of(rt: &impl Print, list: &[f64], report: &[u64; MOST_ROOM]) {
    let mut numbers = [0u64; MOST_FIELDS];
    if let Ok(counts) = list::read_list(list, &mut numbers) {
        for row in report.chunks_exact(PER_ROW).take(counts.ages) {
            print_numbers(rt, row);
        }
    }
}

// A list's answer, with room for so many numbers in report and scratch: number and place, 0 and 0 if it is accepted; then the
// losses before the ages and the stress after them, the bits of the last stress as a double, and a line for each age's row.
pub(crate) fn print_list(rt: &impl Print, list: &[f64], report_room: usize, scratch_room: usize) {
    let mut report = [0u64; MOST_ROOM];
    let mut scratch = [0u64; MOST_ROOM];
    let lent = report_room.min(MOST_ROOM);
    let spare = scratch_room.min(MOST_ROOM);
    match entries::run_list(list, &mut report[..lent], &mut scratch[..spare]) {
        Err(refusal) => print_refusal(rt, refusal),
        Ok(reply) => {
            print_numbers(rt, &[0, 0]);
            print_before(rt, reply.before);
            print_bits(rt, reply.last);
            print_rows_of(rt, list, &report);
        }
    }
}

// What a lent number is before the call.
const UNWRITTEN: u64 = 9_999_999_999_999;

// The numbers of a lent buffer, as many to a line as a line has.
fn print_lent(rt: &impl Print, lent: &[u64]) {
    for numbers in lent.chunks(MOST_PER_LINE) {
        print_numbers(rt, numbers);
    }
}

// Number and place, 0 and 0 if a sheet is accepted; then its sum and its measurable part.
fn print_total(rt: &impl Print, answer: Result<Total, Refusal>) {
    match answer {
        Err(refusal) => print_refusal(rt, refusal),
        Ok(total) => {
            print_numbers(rt, &[0, 0]);
            print_numbers(rt, &[total.sum, total.measurable]);
        }
    }
}

// A card's sheet, with room for so many numbers: its answer, and then, also of a refused one, every number of the lent buffer.
pub(crate) fn print_sheet(rt: &impl Print, card: &[u8], room: usize) {
    let mut sheet = [UNWRITTEN; MOST_ROOM];
    let lent = &mut sheet[..room.min(MOST_ROOM)];
    print_total(rt, elongation::elongation_sheet(card, lent));
    print_lent(rt, lent);
}
