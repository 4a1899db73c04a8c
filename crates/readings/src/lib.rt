// Theorems about the definitions: the papers' marked readings, which specs/Readings.antt lists; in specs/Slip.antt that cards which write
// their slip run alike, whatever a blank one reads; and in specs/OnePath.antt that a card without a second path gives what the rules for
// one path give. Nothing runs.
#![tactic(auto)]
