// The cards: files 0000.card, 0001.card and so on in the folder cards. Those from 0240 on stand at the edges of the papers'
// ranges and rules, and edges.txt says which.
use std::rt::Files;
use std::{fs, io};
use text::Program;

const CARDS: usize = 518;

// A card's file.
fn open_card<R: Files + Alloc>(rt: &R, number: usize) -> io::Result<R::File> {
    let path = format!(in rt.alloc(); "cards/{number:04}.card")?;
    fs::open(rt, path.as_str())
}

// What the report program prints for a card. `print_card` of examples is like it: a function for both would be public, and could promise
// nothing, since no contract says what a system's files hold and what it prints.
fn run_card(rt: &(impl Files + Alloc + Print + Eprint), number: usize) {
    match open_card(rt, number) {
        Ok(mut file) => {
            let _ = input::answer(Program::Report, &mut file, &mut io::writer(rt));
        }
        Err(error) => {
            let _ = eprintln!(rt; "cards: {error}");
        }
    }
}

pub(crate) fn run_cards(rt: &(impl Files + Alloc + Print + Eprint)) {
    for number in 0..CARDS {
        run_card(rt, number);
    }
}
