#![tactic(auto)]
// What users rely on of a move and of restart orders: no code. The statements are in specs/, their proofs in proofs/.
