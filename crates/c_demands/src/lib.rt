// The demands, as theorems about the functions of the C face. There is nothing to run here: specs/ says what a caller in C does
// and sees, and proofs/ shows what then holds.
#![tactic(auto)]
