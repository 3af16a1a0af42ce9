#![tactic(auto)]
// The laws of the initiator's machine: no code. The statements are in specs/, their proofs in proofs/.
