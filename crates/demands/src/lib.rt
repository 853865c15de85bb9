// The demands as theorems over the definitions of the crates below: proofs/Demand1.antt, Demand2.antt, Demand3.antt and
// Readings.antt hold the statements. The crate has no code.
#![tactic(auto)]
