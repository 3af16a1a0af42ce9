#![tactic(auto)]
// The theorems about books and tables: no code. The statements are in specs/, their proofs in proofs/.
