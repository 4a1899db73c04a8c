// How far apart two runs of one member are whose jacking stress two gauges read: the statement is in specs/, its proof in proofs/. Nothing
// runs.
#![tactic(auto)]
