// Executes the vectors: each card, each list of doubles, and each elongation sheet, in the files of data/. What it prints is held to
// what the vectors' own answers say.
#![tactic(auto)]

mod answers;
mod cards;
mod lines;

fn main(rt: HostRuntime) {
    cards::run_cards(&rt);
    lines::run_lists(&rt);
    lines::run_sheets(&rt);
}
