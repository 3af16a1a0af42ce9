#![tactic(auto)]
// The laws of messages: no code. The statements are in specs/, their proofs in proofs/.
