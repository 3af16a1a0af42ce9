#![tactic(auto)]
// Search and move belong together: no code. The statements are in specs/, their proofs in proofs/.
