// The method in fractions and the statement of demand 3 are in specs/, its proof in proofs/: nothing runs.
#![tactic(auto)]
