// The three demands, as theorems about the unit. There is nothing to run here: specs/ says what is claimed, in terms of the
// definitions that the unit's functions are proved to meet, and proofs/ shows it.
#![tactic(auto)]
