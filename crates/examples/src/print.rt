// Lines on standard output: a text above each part, and numbers in columns. Where one cannot be written, the next is tried.
use std::io;

pub(crate) fn print_title(rt: &impl Print, text: &str) {
    let _ = println!(rt; "{text}");
}

// answers.rt of cases says why it has one like it.
pub(crate) fn print_numbers(rt: &impl Print, numbers: &[u64]) {
    let _ = input::write_numbers(&mut io::writer(rt), numbers);
}
