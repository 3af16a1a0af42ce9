#![tactic(auto)]
// Demand 3 for callers from other languages, over words: no code. The statements are in specs/, their proofs in proofs/.
