#![tactic(auto)]
// What the laws of both machines share: no code. The statements are in specs/, their proofs in proofs/.
