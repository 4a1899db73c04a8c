// The cards: each one's file, and below it what the report program prints for it; and of some what the sheet program prints.
use crate::print::print_title;
use std::rt::Files;
use std::{fs, io};
use text::Program;

const REPORTS: [&str; 20] = [
    // Document 001, design example 1.
    "double_tee.card",
    "double_tee_fpy_230.card",
    "double_tee_after_transfer.card",
    // Document 001, design example 3.
    "slab.card",
    "slab_as_printed.card",
    "slab_cured_seven_days.card",
    "slab_shrinkage.card",
    "slab_fpy_235.card",
    "slab_friction.card",
    // Document 002, example 1: the tendon from its jack to each point in turn.
    "box_girder_b.card",
    "box_girder_c.card",
    "box_girder_d.card",
    "box_girder_e.card",
    "box_girder_f.card",
    "box_girder_g.card",
    // Document 002, example 2: the same tendon with its anchor set, to B, which the set passes, and to C, before which it dies out.
    "box_girder_seated_b.card",
    "box_girder_seated_c.card",
    // Document 002, example 3: to mid-span, and to the dead end.
    "simple_span_b.card",
    "simple_span_c.card",
    // Document 002, example 4: pulled from both ends, to the point between them that does not move.
    "four_spans.card",
];

// Document 002, examples 1, 3 and 4: how far each tendon comes out, of the last from its first end; the third card has the simple span as
// one segment.
const SHEETS: [&str; 4] = [
    "box_girder_g.card",
    "simple_span_c.card",
    "simple_span_one_mean.card",
    "four_spans.card",
];

// What a program prints for a card. cards.rt of cases says why it has one like it.
fn print_card(rt: &(impl Files + Print + Eprint), program: Program, path: &str) {
    match fs::open(rt, path) {
        Ok(mut file) => {
            let _ = input::answer(program, &mut file, &mut io::writer(rt));
        }
        Err(error) => {
            let _ = eprintln!(rt; "{path}: {error}");
        }
    }
}

pub(crate) fn run_cards(rt: &(impl Files + Print + Eprint)) {
    for path in REPORTS {
        print_title(rt, path);
        print_card(rt, Program::Report, path);
    }
    for path in SHEETS {
        let _ = print!(rt; "sheet of ");
        print_title(rt, path);
        print_card(rt, Program::Sheet, path);
    }
}
