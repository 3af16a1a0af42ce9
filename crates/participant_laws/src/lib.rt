#![tactic(auto)]
// The laws of the participant's machine: no code. The statements are in specs/, their proofs in proofs/.
