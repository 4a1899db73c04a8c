// The sheet program: a card on standard input, its elongation sheet in ticks of inch on standard output.
#![tactic(auto)]

use std::io;
use text::Program;

// It writes by `writer`, which gives up where the system interrupts every write: the handle of `stdout` would try on without end.
fn main(rt: HostRuntime) {
    if input::answer(Program::Sheet, &mut rt.stdin(), &mut io::writer(&rt)).is_err() {
        let _ = eprintln!(rt; "sheet: the answer could not be written whole");
    }
}
