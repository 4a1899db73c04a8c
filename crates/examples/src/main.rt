// Executes the examples of documents 001 and 002, as the cards of data/, and then the readings of document 01 that no theorem
// lists. What it prints is held to what tools/paper.py works out by itself; docs/EXAMPLES.md sets the cards' answers beside
// the documents' own numbers.
#![tactic(auto)]

mod cards;
mod print;
mod readings;
mod shares;

fn main(rt: HostRuntime) {
    cards::run_cards(&rt);
    readings::print_readings(&rt);
}
