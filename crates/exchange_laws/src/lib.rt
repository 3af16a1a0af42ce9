#![tactic(auto)]
// The laws of what the machines send one another: no code. The statements are in specs/, their proofs in proofs/.
