#![tactic(auto)]
// What users rely on of values that cross as words: no code. The statements are in specs/, their proofs in proofs/.
